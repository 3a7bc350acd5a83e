ghost use Rattle.std.specs.Prelude.{◌≡◌, ℕ, ◌<◌, ◌≤◌, ◌+◌, ◌^◌, [], ◌∷◌, ◌++◌, length, slice_index_or, IfOk, OnOk, OnErr};
ghost use Rattle.gates.specs.Literal.{always};

use crate::lit::Lit;
use std::alloc::{AllocError, Global};
use std::marker::Model;

/// A list of literals.
#[derive(Drop)]
pub struct Lits {
    items: Vec<Lit>,
}

impl Model for Lits {
    ghost use Rattle.std.specs.Prelude.{List};
    ghost use Rattle.gates.specs.Literal.{Literal};

    ghost Value = { List Literal };

    ghost view = { λ a. a.items.items };
}

impl Lits {
    /// No literal.
    pub fn new(alloc: Global) -> Lits
        ensures { result ≡ [] }
    {
        Lits {
            items: Vec::new(alloc),
        }
    }

    /// The literals of a vector.
    pub fn from_vec(items: Vec<Lit>) -> Lits
        ensures { result ≡ items.items }
    {
        Lits { items }
    }

    /// The literals.
    pub fn as_slice(&self) -> &[Lit]
        ensures { result.now ≡ self.now }
    {
        self.items.as_slice()
    }

    /// How many there are.
    pub fn len(&self) -> usize
        ensures count { result ≡ length self.now }
        ensures fits { result < 2 ^ 63 }
    {
        self.items.len()
    }

    /// The literal of a place.
    pub fn get(&self, i: usize) -> Lit
        requires { i < length self.now }
        ensures { result ≡ slice_index_or self.now i always }
    {
        self.items[i]
    }

    /// Puts a literal at the end.
    pub fn push(&mut self, a: Lit) -> Result<(), AllocError>
        ensures ok { OnOk result (self.new ≡ self.old ++ a ∷ []) }
        ensures err { OnErr result (self.new ≡ self.old) }
    {
        self.items.push(a)?;
        Ok(())
    }

    /// The same literals once more.
    pub fn copy(&self, alloc: Global) -> Result<Lits, AllocError>
        ensures { IfOk result (λ copy. copy ≡ self.now) }
    {
        Ok(Lits {
            items: Vec::from_slice(alloc, self.items.as_slice())?,
        })
    }
}
