ghost use Rattle.std.specs.Prelude.{◌≡◌, ℕ, ◌+◌, ◌<◌, Bool, length, IfOk, Decides};
ghost use Rattle.smv_tree.specs.Trees.{Tree};
ghost use Rattle.smv_tree.specs.Models.{Claim};
ghost use Rattle.smv_meaning.specs.Places.{next_place};
ghost use Rattle.smv_meaning.specs.LassoTruth.{TrueAt};
ghost use Rattle.ltl_form.specs.Nodes.{Says, PartsWithin, AtomWithin, IsOrdered, root};
ghost use Rattle.ltl_form.specs.Rows.{told, row_at, lasso_value, IsRow, AreRows, LassoTells};
ghost use Rattle.ltl_form.specs.Tables.{StatesEach, Covers, DecidesAtomsBelow, passes};

use crate::nnf::Nnf;
use crate::node::NnfNode;
use crate::row::{Row, around, around_whole};
use crate::table::Table;
use std::alloc::{AllocError, Global};

/// Whether a formula is true at a place of the lasso that goes from state `k - 1` back to state
/// `l`.
///
/// Each node's row of values is made once, in at most two sweeps over the places.
///
/// Source: Latvala, Biere, Heljanko and Junttila, "Simple bounded LTL model checking", FMCAD 2004.
pub fn lasso_truth(
    alloc: Global,
    n: &Nnf,
    t: &Table,
    k: u32,
    l: u32,
    at: u32,
) -> Result<bool, AllocError>
    requires start { l < k }
    requires place { at < k }
    requires table { Covers t.now (k + 1) n.now }
    ensures truth { (names : ℕ → Tree) (holds : Tree → ℕ → Bool) (f : Claim) →
        Says names n.now (root n.now) f → DecidesAtomsBelow k t.now names (passes holds) →
        IfOk result (λ b. Decides b (TrueAt k l (passes holds) f at)) }
    ensures rows { IfOk result (LassoTells k l t.now n.now at) }
{
    let nodes = n.nodes();
    let rows = lasso_rows(alloc, nodes, t, k as usize, l as usize)?;
    Ok(rows[nodes.len() - 1].get(at as usize))
}

/// The rows of all nodes on a lasso.
fn lasso_rows(
    alloc: Global,
    nodes: &[NnfNode],
    t: &Table,
    k: usize,
    l: usize,
) -> Result<Vec<Row>, AllocError>
    requires start { l < k }
    requires ordered { IsOrdered nodes.now }
    requires table { Covers t.now (k + 1) nodes.now }
    ensures { IfOk result (λ rows. AreRows k (lasso_value k l t.now) nodes.now rows.items) }
{
    let mut rows = Vec::new(alloc);
    for node in nodes {
        let row = lasso_row(alloc, *node, &rows, t, k, l)?;
        rows.push(row)?;
    }
    Ok(rows)
}

/// The row of a node on a lasso.
fn lasso_row(
    alloc: Global,
    node: NnfNode,
    rows: &Vec<Row>,
    t: &Table,
    k: usize,
    l: usize,
) -> Result<Row, AllocError>
    requires start { l < k }
    requires parts { PartsWithin (length rows.now.items) node }
    requires places { StatesEach k rows.now.items }
    requires atom { AtomWithin (length t.now) node }
    requires states { StatesEach (k + 1) t.now }
    ensures { IfOk result (IsRow k (lasso_value k l t.now rows.now.items node)) }
{
    match node {
        NnfNode::Literal(a, negated) => t.row(a).turned(alloc, k, negated),
        NnfNode::And(a, b) => rows[a as usize].both(alloc, &rows[b as usize]),
        NnfNode::Or(a, b) => rows[a as usize].either(alloc, &rows[b as usize]),
        NnfNode::Next(a) => next(alloc, &rows[a as usize], l),
        NnfNode::Until(a, b) => around(alloc, &rows[a as usize], &rows[b as usize], false, l),
        NnfNode::Releases(a, b) => around(alloc, &rows[a as usize], &rows[b as usize], true, l),
        NnfNode::Always(a) => around_whole(alloc, &rows[a as usize], true, l),
        NnfNode::Eventually(a) => around_whole(alloc, &rows[a as usize], false, l),
    }
}

/// Where a part holds at the next place, which after the last one is the start of the loop.
fn next(alloc: Global, part: &Row, l: usize) -> Result<Row, AllocError>
    requires { l < length part.now }
    ensures { IfOk result (IsRow (length part.now)
        (λ p. told part.now (next_place (length part.now) l p))) }
{
    part.shifted(alloc, part.get(l))
}
