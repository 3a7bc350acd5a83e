ghost use Rattle.std.specs.Prelude.{◌≡◌, ◌==◌, IfOk, is_err};
ghost use Rattle.std.specs.List.{list_any};
ghost use Rattle.outside.specs.Memory.{counted, fails_next};
ghost use Rattle.outside.specs.Told.{one_more};

use crate::Failed;
use std::alloc::{AllocError, Global};
use std::marker::Model;

/// The calls of an object in memory: how many there were, which are to fail, counted from 1, and
/// how many did.
#[derive(Debug, Drop)]
pub(crate) struct Calls {
    made: u64,
    failing: Vec<u64>,
    faults: u64,
}

impl Model for Calls {
    ghost use Rattle.outside.specs.Memory.{Calls as CallsHeld};

    ghost Value = { CallsHeld };

    ghost view = { λ c. record { made = c.made; failing = c.failing.items; faults = c.faults } };
}

fn has_number(numbers: &[u64], wanted: u64) -> bool
    ensures { result ≡ list_any (λ number. number == wanted) numbers.now }
{
    numbers.iter().any(|number| *number == wanted)
}

impl Calls {
    pub(crate) fn new(alloc: Global, failing: &[u64]) -> Result<Calls, AllocError>
        ensures { IfOk result (λ calls. calls ≡ record { made = 0; failing = failing.now; faults = 0 }) }
    {
        Ok(Calls {
            made: 0,
            failing: Vec::from_slice(alloc, failing)?,
            faults: 0,
        })
    }

    /// Counts a call, and fails it if it is one of those that are to fail.
    pub(crate) fn make(&mut self) -> Result<(), Failed>
        ensures fails { is_err result ≡ fails_next self.old }
        ensures counted { self.new ≡ counted (is_err result) self.old }
    {
        self.made = self.made.saturating_add(1);
        if has_number(self.failing.as_slice(), self.made) {
            self.faults = self.faults.saturating_add(1);
            return Err(Failed);
        }
        Ok(())
    }

    /// Counts a fault of the call that was made last.
    pub(crate) fn fail(&mut self)
        ensures counted { self.new ≡ record self.old { faults = one_more self.old.faults } }
    {
        self.faults = self.faults.saturating_add(1);
    }
}
