ghost use Rattle.std.specs.Prelude.{◌≡◌, ◌<◌, ◌++◌, ◌∷◌, [], not, length, position, slice_get, Some, IfOk, OnErr, MatchBool};
ghost use Rattle.std.specs.Str.{bytes_eq};
ghost use Rattle.bool_replay.specs.Plain.{is_declared};

use indexmap::IndexSet;
use std::alloc::{AllocError, Global};
use std::marker::Model;

/// Names in the order of their declarations, each once.
#[derive(Drop)]
pub(crate) struct Names {
    names: IndexSet<Vec<u8>>,
}

impl Model for Names {
    ghost use Rattle.std.specs.Prelude.{ℕ, List, map};

    ghost Value = { List (List ℕ) };

    ghost view = { λ n. map (λ v. v.items) n.names.keys };
}

impl Names {
    pub(crate) fn new(alloc: Global) -> Names
        ensures { result ≡ [] }
    {
        Names {
            names: IndexSet::new(alloc),
        }
    }

    /// How many names there are.
    pub(crate) fn len(&self) -> usize
        ensures { result ≡ length self.now }
    {
        self.names.len()
    }

    /// Adds a name at the end, unless it is there.
    pub(crate) fn insert(&mut self, alloc: Global, name: &[u8]) -> Result<bool, AllocError>
        ensures is_new { IfOk result (λ added. is_declared self.old name.now ≡ not added) }
        ensures added { IfOk result (λ added. MatchBool added (self.new ≡ self.old ++ name.now ∷ []) (self.new ≡ self.old)) }
        ensures err { OnErr result (self.new ≡ self.old) }
    {
        if self.names.contains(name) {
            return Ok(false);
        }
        self.names.insert(Vec::from_slice(alloc, name)?)?;
        Ok(true)
    }

    /// The number of a name, from 0.
    pub(crate) fn index_of(&self, name: &[u8]) -> Option<usize>
        ensures { result ≡ position (bytes_eq name.now) self.now }
    {
        self.names.get_index_of(name)
    }

    /// Whether a name is there.
    pub(crate) fn contains(&self, name: &[u8]) -> bool
        ensures { result ≡ is_declared self.now name.now }
    {
        self.names.contains(name)
    }

    /// The name of a number.
    pub(crate) fn get(&self, index: usize) -> &[u8]
        requires { index < length self.now }
        ensures { slice_get self.now index ≡ Some result.now }
    {
        self.names.get_index(index).unwrap().as_slice()
    }
}
