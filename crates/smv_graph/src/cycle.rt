ghost use Rattle.std.specs.Prelude.{◌↔◌, Contains, IfOk, IsTrue};
ghost use Rattle.smv_meaning.specs.Walks.{IsOnCycle};
ghost use Rattle.smv_graph.specs.Graph.{Leads};

use crate::Graph;
use indexmap::IndexSet;
use std::alloc::{AllocError, Global};

/// Whether a module is among these.
pub(crate) fn has(reached: &IndexSet<usize>, number: usize) -> bool
    ensures { IsTrue result ↔ Contains reached.now.keys number }
{
    reached.contains(&number)
}

impl Graph {
    /// Whether a module contains itself, maybe through others.
    pub fn contains_itself(&self, alloc: Global, number: usize) -> Result<bool, AllocError>
        ensures { IfOk result (λ is. IsTrue is ↔ IsOnCycle (Leads self.now) number) }
    {
        let reached = self.reached(alloc, number)?;
        Ok(has(&reached, number))
    }
}
