//! The numbers of modules by their names.
ghost use Rattle.std.specs.Prelude.{◌≡◌, ◌++◌, ◌∷◌, [], ℕ, List, IfOk, OnOk, is_some, if◌then◌else◌, position};
ghost use Rattle.std.specs.Map.{lookup};
ghost use Rattle.std.specs.Str.{bytes_eq};
ghost use Rattle.smv_tree.specs.Models.{bodies};

use indexmap::IndexMap;
use smv_tree::Program;
use std::alloc::{AllocError, Global};
use std::marker::Model;

/// Names with numbers, each name once.
#[derive(Drop)]
pub struct Numbers {
    numbers: IndexMap<Vec<u8>, usize>,
}

impl Model for Numbers {
    ghost use Rattle.std.specs.Prelude.{ℕ, List, map};

    ghost Value = { List (List ℕ × ℕ) };

    ghost view = { λ n. map (λ e. (e.0.items, e.1)) n.numbers.entries };
}

impl Numbers {
    /// No names.
    pub fn new(alloc: Global) -> Numbers
        ensures { result ≡ [] }
    {
        Numbers {
            numbers: IndexMap::new(alloc),
        }
    }

    /// The number of a name, if it has one.
    pub fn get(&self, name: &[u8]) -> Option<usize>
        ensures { result ≡ lookup (bytes_eq name.now) self.now }
    {
        self.numbers.get(name).copied()
    }

    /// Gives a name a number, unless it has one.
    pub fn insert(&mut self, alloc: Global, name: &[u8], number: usize) -> Result<(), AllocError>
        ensures { OnOk result (self.new ≡ (if is_some (lookup (bytes_eq name.now) self.old)
            then self.old else self.old ++ (name.now, number) ∷ [])) }
    {
        match self.get(name) {
            Some(_) => Ok(()),
            None => {
                self.numbers.insert(Vec::from_slice(alloc, name)?, number)?;
                Ok(())
            }
        }
    }
}

/// The modules of a program by their names, each name with the first of its modules.
pub fn module_numbers(alloc: Global, p: &Program) -> Result<Numbers, AllocError>
    ensures { IfOk result (λ n. (m : List ℕ) →
        lookup (bytes_eq m) n ≡ position (λ b. bytes_eq b.name m) (bodies p.now)) }
{
    let mut numbers = Numbers::new(alloc);
    for (i, one) in p.modules.iter().enumerate() {
        numbers.insert(alloc, one.name.as_slice(), i)?;
    }
    Ok(numbers)
}
