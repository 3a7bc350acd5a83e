ghost use Rattle.std.specs.Prelude.{◌≡◌};
ghost use Rattle.trace_store.specs.Stored.{nothing_stored};

use crate::Entry;
use std::alloc::Global;
use std::marker::Model;

/// Traces in the order of their numbers, which count from 1.
#[derive(Debug, Drop)]
pub struct Store {
    entries: Vec<Entry>,
    /// The number of the trace whose last state is the current one.
    current: Option<u32>,
}

impl Model for Store {
    ghost use Rattle.trace_store.specs.Stored.{Stored};

    ghost Value = { Stored };

    ghost view = { λ s. record { entries = s.entries.items; current = s.current } };
}

impl Store {
    /// No trace, and no current state.
    pub fn new(alloc: Global) -> Store
        ensures { result ≡ nothing_stored }
    {
        Store {
            entries: Vec::new(alloc),
            current: None,
        }
    }
}
