//! Modules that are on no cycle, which are found without a search for each.
ghost use Rattle.std.specs.Prelude.{◌≡◌, ℕ, Contains, Some, IfOk, OnOk, IsTrue};
ghost use Rattle.smv_meaning.specs.Walks.{IsOnCycle};
ghost use Rattle.smv_graph.specs.Graph.{Leads};

use crate::Graph;
use crate::cycle::has;
use indexmap::IndexSet;
use std::alloc::{AllocError, Global};

/// How often the graph is gone through: as often as modules may be nested that a model has instances of.
const ROUNDS: usize = 66;

/// Whether a part of a row leads to none but some modules.
fn is_within(some: &IndexSet<usize>, target: Option<usize>) -> bool
    ensures { IsTrue result → (b : ℕ) → target ≡ Some b → Contains some.now.keys b }
{
    match target {
        Some(number) => has(some, number),
        None => true,
    }
}

/// Whether a row leads to none but some modules.
fn stays_within(some: &IndexSet<usize>, row: &[Option<usize>]) -> bool
    ensures { IsTrue result → (b : ℕ) → Contains row.now (Some b) → Contains some.now.keys b }
{
    for target in row {
        if !is_within(some, *target) {
            return false;
        }
    }
    true
}

impl Graph {
    /// Adds, to modules that are on no cycle, those that lead only to such as are there already.
    fn settle(&self, settled: &mut IndexSet<usize>) -> Result<(), AllocError>
        requires { (a : ℕ) → Contains settled.old.keys a → ¬ IsOnCycle (Leads self.now) a }
        ensures { OnOk result (
            (a : ℕ) → Contains settled.new.keys a → ¬ IsOnCycle (Leads self.now) a) }
    {
        for number in 0..self.len() {
            if stays_within(settled, self.row(number)) {
                settled.insert(number)?;
            }
        }
        Ok(())
    }

    /// Modules that are on no cycle: all from which no walk of more than 65 steps leads anywhere.
    pub fn settled(&self, alloc: Global) -> Result<IndexSet<usize>, AllocError>
        ensures { IfOk result (λ s.
            (a : ℕ) → Contains s.keys a → ¬ IsOnCycle (Leads self.now) a) }
    {
        let mut settled = IndexSet::new(alloc);
        for _ in 0..ROUNDS {
            let before = settled.len();
            self.settle(&mut settled)?;
            if settled.len() == before {
                return Ok(settled);
            }
        }
        Ok(settled)
    }
}
