ghost use Rattle.std.specs.Prelude.{◌≡◌, ℕ, ◌<◌, length, IfOk};
ghost use Rattle.gates.specs.Valuation.{value_at};

use std::alloc::{AllocError, Global};
use std::marker::Model;

/// A list of truth values.
#[derive(Drop)]
pub struct Truths {
    items: Vec<bool>,
}

impl Model for Truths {
    ghost use Rattle.std.specs.Prelude.{Bool, List};

    ghost Value = { List Bool };

    ghost view = { λ a. a.items.items };
}

impl Truths {
    /// The truth values of a vector.
    pub fn from_vec(items: Vec<bool>) -> Truths
        ensures { result ≡ items.items }
    {
        Truths { items }
    }

    /// The truth values.
    pub fn as_slice(&self) -> &[bool]
        ensures { result.now ≡ self.now }
    {
        self.items.as_slice()
    }

    /// How many there are.
    pub fn len(&self) -> usize
        ensures { result ≡ length self.now }
    {
        self.items.len()
    }

    /// The truth value of a place.
    pub fn get(&self, i: usize) -> bool
        requires { i < length self.now }
        ensures { result ≡ value_at self.now i }
    {
        self.items[i]
    }

    /// The same truth values once more.
    pub fn copy(&self, alloc: Global) -> Result<Truths, AllocError>
        ensures { IfOk result (λ copy. copy ≡ self.now) }
    {
        Ok(Truths {
            items: Vec::from_slice(alloc, self.items.as_slice())?,
        })
    }
}
