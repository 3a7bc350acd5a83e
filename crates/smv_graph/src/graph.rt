ghost use Rattle.std.specs.Prelude.{◌≡◌, ◌<◌, ◌↔◌, ◌++◌, ◌⊎◌, ℕ, List, Contains, Some, None, map, length, slice_get, IfOk, OnOk};
ghost use Rattle.smv_tree.specs.Models.{bodies, body_of, part_of};
ghost use Rattle.smv_graph.specs.Graph.{graph_of, row_of, target_in, Reaches, IsClosed};
ghost use Rattle.smv_graph.specs.Queues.{IsAdded};

use crate::numbers::{Numbers, module_numbers};
use indexmap::IndexSet;
use smv_tree::{Item, Items, Modules, Program, TypeSyntax};
use std::alloc::{AllocError, Global};
use std::marker::Model;

/// The modules of a program by number, from 0. Each has a row with a place for each of its items: the
/// number of the module of an instance variable, and nothing for other items and unknown modules.
#[derive(Drop)]
pub struct Graph {
    pub(crate) rows: Vec<Vec<Option<usize>>>,
}

impl Model for Graph {
    ghost use Rattle.std.specs.Prelude.{ℕ, List, Option, map};
    ghost use Rattle.smv_graph.specs.Graph.{IsClosed};

    ghost Value = { List (List (Option ℕ)) };

    ghost view = { λ g. map (λ r. r.items) g.rows.items };

    ghost invariant = { λ g. IsClosed (map (λ r. r.items) g.rows.items) };
}

/// What an item leads to.
fn target(numbers: &Numbers, item: &Item) -> Option<usize>
    ensures { result ≡ target_in numbers.now (part_of item.now) }
{
    match item {
        Item::Var(_, _, _, TypeSyntax::Instance(name, _, _)) => numbers.get(name.as_slice()),
        _ => None,
    }
}

/// What each of some items leads to.
fn targets(
    alloc: Global,
    numbers: &Numbers,
    items: &Items,
) -> Result<Vec<Option<usize>>, AllocError>
    ensures { IfOk result (λ v.
        v.items ≡ map (target_in numbers.now) (map part_of items.now.items)) }
{
    let mut row = Vec::new(alloc);
    for item in items {
        row.push(target(numbers, item))?;
    }
    Ok(row)
}

/// The row of each of some modules.
fn rows_by(
    alloc: Global,
    numbers: &Numbers,
    modules: &Modules,
) -> Result<Vec<Vec<Option<usize>>>, AllocError>
    ensures { IfOk result (λ v. map (λ r. r.items) v.items
        ≡ map (λ b. map (target_in numbers.now) b.parts) (map body_of modules.now.items)) }
{
    let mut rows = Vec::new(alloc);
    for one in modules {
        let row = targets(alloc, numbers, &one.items)?;
        rows.push(row)?;
    }
    Ok(rows)
}

/// The row of each module.
fn rows(alloc: Global, p: &Program) -> Result<Vec<Vec<Option<usize>>>, AllocError>
    ensures { IfOk result (λ v. map (λ r. r.items) v.items ≡ graph_of (bodies p.now)) }
{
    let numbers = module_numbers(alloc, p)?;
    let rows = rows_by(alloc, &numbers, &p.modules)?;
    Ok(rows)
}

/// Adds what a row leads to, each module once.
fn add_row(queue: &mut IndexSet<usize>, row: &[Option<usize>]) -> Result<(), AllocError>
    ensures { OnOk result (IsAdded queue.old.keys row.now queue.new.keys) }
{
    for target in row {
        match target {
            Some(number) => {
                queue.insert(*number)?;
            }
            None => {}
        }
    }
    Ok(())
}

/// The number at a place of a queue.
fn number_at(queue: &IndexSet<usize>, place: usize) -> usize
    requires { place < length queue.now.keys }
    ensures { slice_get queue.now.keys place ≡ Some result }
{
    queue.as_slice()[place]
}

impl Graph {
    /// The graph of a program.
    pub fn of(alloc: Global, p: &Program) -> Result<Graph, AllocError>
        ensures { IfOk result (λ g. g ≡ graph_of (bodies p.now)) }
    {
        let rows = rows(alloc, p)?;
        Ok(Graph { rows })
    }

    /// The graph with these rows, of whatever leads to one another.
    pub fn from_rows(rows: Vec<Vec<Option<usize>>>) -> Graph
        requires { IsClosed (map (λ r. r.items) rows.items) }
        ensures { result ≡ map (λ r. r.items) rows.items }
    {
        Graph { rows }
    }

    /// How many modules there are.
    pub fn len(&self) -> usize
        ensures { result ≡ length self.now }
    {
        self.rows.len()
    }

    /// What the items of a module lead to.
    pub fn row(&self, number: usize) -> &[Option<usize>]
        ensures { result.now ≡ row_of self.now number }
    {
        match self.rows.get(number) {
            Some(row) => row.as_slice(),
            None => &[],
        }
    }

    /// The modules to which a walk of one step or more leads from a module, nearer ones first.
    pub fn reached(&self, alloc: Global, start: usize) -> Result<IndexSet<usize>, AllocError>
        ensures { IfOk result (λ s. (b : ℕ) → Contains s.keys b ↔ Reaches self.now start b) }
    {
        let _closed = &self.rows;
        let mut queue = IndexSet::new(alloc);
        add_row(&mut queue, self.row(start))?;
        let mut next = 0;
        while next < queue.len() {
            let number = number_at(&queue, next);
            add_row(&mut queue, self.row(number))?;
            next += 1;
        }
        Ok(queue)
    }
}
