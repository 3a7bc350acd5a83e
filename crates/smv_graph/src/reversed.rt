//! The graph with each arrow the other way round.
ghost use Rattle.std.specs.Prelude.{◌≡◌, ◌<◌, ◌↔◌, ◌++◌, ◌∷◌, [], ℕ, List, Option, Contains, Some, map, length, replicate, IfOk, OnOk};
ghost use Rattle.smv_graph.specs.Graph.{Leads};
ghost use Rattle.smv_graph.specs.Arrows.{AreAdded, IsBack};

use crate::Graph;
use std::alloc::{AllocError, Global};

/// Adds an arrow from a module to another.
fn add_arrow(rows: &mut Vec<Vec<Option<usize>>>, from: usize, to: usize) -> Result<(), AllocError>
    requires { from < length rows.old.items }
    ensures { OnOk result (AreAdded (map (λ r. r.items) rows.old.items)
        (λ a b. (a ≡ from) × (b ≡ to)) (map (λ r. r.items) rows.new.items)) }
{
    rows[from].push(Some(to))?;
    Ok(())
}

/// Adds an arrow to a module from each that its row leads to.
fn add_back(
    rows: &mut Vec<Vec<Option<usize>>>,
    row: &[Option<usize>],
    number: usize,
) -> Result<(), AllocError>
    requires { (a : ℕ) → Contains row.now (Some a) → a < length rows.old.items }
    ensures { OnOk result (AreAdded (map (λ r. r.items) rows.old.items)
        (IsBack row.now number) (map (λ r. r.items) rows.new.items)) }
{
    for target in row {
        match target {
            Some(a) => add_arrow(rows, *a, number)?,
            None => {}
        }
    }
    Ok(())
}

/// So many rows that lead nowhere.
fn empty_rows(alloc: Global, count: usize) -> Result<Vec<Vec<Option<usize>>>, AllocError>
    ensures { IfOk result (λ v. map (λ r. r.items) v.items ≡ replicate count []) }
{
    let mut rows = Vec::new(alloc);
    for _ in 0..count {
        rows.push(Vec::new(alloc))?;
    }
    Ok(rows)
}

impl Graph {
    /// The graph with each arrow the other way round.
    pub(crate) fn reversed(&self, alloc: Global) -> Result<Graph, AllocError>
        ensures { IfOk result (λ g. (a b : ℕ) → Leads g a b ↔ Leads self.now b a) }
    {
        let _closed = &self.rows;
        let mut rows = empty_rows(alloc, self.len())?;
        for number in 0..self.len() {
            add_back(&mut rows, self.row(number), number)?;
        }
        Ok(Graph { rows })
    }
}
