ghost use Rattle.std.specs.Prelude.{◌≡◌, ℕ, ◌+◌, ◌^◌, ◌<◌, ◌≤◌, Bool, true, length, IfOk, Decides};
ghost use Rattle.smv_tree.specs.Trees.{Tree};
ghost use Rattle.smv_tree.specs.Models.{Claim};
ghost use Rattle.smv_meaning.specs.SettledTruth.{Settled};
ghost use Rattle.ltl_form.specs.Nodes.{Says, PartsWithin, AtomWithin, IsOrdered, root};
ghost use Rattle.ltl_form.specs.Rows.{row_at, short_value, IsRow, AreRows, ShortTells};
ghost use Rattle.ltl_form.specs.Tables.{StatesEach, Covers, DecidesAtomsBelow, passes};

use crate::nnf::Nnf;
use crate::node::NnfNode;
use crate::row::{Row, along, along_both, along_whole};
use crate::table::Table;
use std::alloc::{AllocError, Global};

/// Whether the states 0 to `k` of a path settle that a formula is true at a place, whatever comes
/// after them.
///
/// Each node's row of values is made once, in at most one sweep over the places.
pub fn short_truth(alloc: Global, n: &Nnf, t: &Table, k: u32, at: u32) -> Result<bool, AllocError>
    requires place { at ≤ k }
    requires table { Covers t.now (k + 1) n.now }
    ensures truth { (names : ℕ → Tree) (holds : Tree → ℕ → Bool) (f : Claim) →
        Says names n.now (root n.now) f → DecidesAtomsBelow (k + 1) t.now names (passes holds) →
        IfOk result (λ b. Decides b (Settled (passes holds) k f true at)) }
    ensures rows { IfOk result (ShortTells k t.now n.now at) }
{
    let nodes = n.nodes();
    let rows = short_rows(alloc, nodes, t, k as usize)?;
    Ok(rows[nodes.len() - 1].get(at as usize))
}

/// The rows of all nodes on a path.
fn short_rows(alloc: Global, nodes: &[NnfNode], t: &Table, k: usize) -> Result<Vec<Row>, AllocError>
    requires last { k < 2 ^ 32 }
    requires ordered { IsOrdered nodes.now }
    requires table { Covers t.now (k + 1) nodes.now }
    ensures { IfOk result (λ rows. AreRows (k + 1) (short_value k t.now) nodes.now rows.items) }
{
    let mut rows = Vec::new(alloc);
    for node in nodes {
        let row = short_row(alloc, *node, &rows, t, k)?;
        rows.push(row)?;
    }
    Ok(rows)
}

/// The row of a node on a path.
fn short_row(
    alloc: Global,
    node: NnfNode,
    rows: &Vec<Row>,
    t: &Table,
    k: usize,
) -> Result<Row, AllocError>
    requires last { k < 2 ^ 32 }
    requires parts { PartsWithin (length rows.now.items) node }
    requires places { StatesEach (k + 1) rows.now.items }
    requires atom { AtomWithin (length t.now) node }
    requires states { StatesEach (k + 1) t.now }
    ensures { IfOk result (IsRow (k + 1) (short_value k t.now rows.now.items node)) }
{
    match node {
        NnfNode::Literal(a, negated) => t.row(a).turned(alloc, k + 1, negated),
        NnfNode::And(a, b) => rows[a as usize].both(alloc, &rows[b as usize]),
        NnfNode::Or(a, b) => rows[a as usize].either(alloc, &rows[b as usize]),
        NnfNode::Next(a) => rows[a as usize].shifted(alloc, false),
        NnfNode::Until(a, b) => along(alloc, &rows[a as usize], &rows[b as usize]),
        NnfNode::Releases(a, b) => along_both(alloc, &rows[a as usize], &rows[b as usize]),
        NnfNode::Always(_) => Row::filled(alloc, k + 1, false),
        NnfNode::Eventually(a) => along_whole(alloc, &rows[a as usize]),
    }
}
