#![tactic(auto, using(crate::proofs::Literals::circuits))]

ghost use Rattle.std.specs.Prelude.{◌≡◌, ℕ, ◌+◌, ◌<◌, Bool, List, length, IfOk, Decides};
ghost use Rattle.gates.specs.Nodes.{Grows, AddsConjunctions, Belongs};
ghost use Rattle.gates.specs.Valuation.{value_of, values_of, IsValuation};
ghost use Rattle.smv_tree.specs.Trees.{Tree};
ghost use Rattle.smv_tree.specs.Models.{Claim};
ghost use Rattle.smv_meaning.specs.LassoTruth.{TrueAt};
ghost use Rattle.ltl_form.specs.Nodes.{Says, PartsWithin, AtomWithin, IsOrdered, root};
ghost use Rattle.ltl_form.specs.Rows.{lasso_value, IsRow, AreRows, LassoTells};
ghost use Rattle.ltl_form.specs.Tables.{DecidesAtomsBelow, passes};
ghost use Rattle.smv_meaning.specs.Places.{next_place};
ghost use Rattle.ltl_bmc.specs.Circuits.{lit_at, lits_at, told_rows, RowBelongs, RowsBelong};
ghost use Rattle.ltl_bmc.specs.Circuits.{StatesEach, CoversLits};

use crate::row::LitRow;
use crate::sweeps::{around, around_whole, join_rows, shift, turn};
use crate::table::LitTable;
use gates::{Gates, Lit};
use ltl_form::{Nnf, NnfNode};
use std::alloc::{AllocError, Global};

/// A literal that is true where a formula is, at the first place of the lasso that goes from state
/// `k - 1` back to state `l`, whatever values the literals of its atoms have.
///
/// It makes at most four gates for each node and place.
///
/// Source: Biere, Cimatti, Clarke and Zhu, "Symbolic model checking without BDDs", TACAS 1999; and
/// Latvala, Biere, Heljanko and Junttila, "Simple bounded LTL model checking", FMCAD 2004.
pub fn encode_loop(
    alloc: Global,
    g: &mut Gates,
    n: &Nnf,
    atoms: &LitTable,
    k: u32,
    l: u32,
) -> Result<Lit, AllocError>
    requires start { l < k }
    requires table { CoversLits atoms.now (k + 1) n.now }
    requires belong { RowsBelong g.old atoms.now }
    ensures truth { IfOk result (λ a. (values : List Bool) → IsValuation g.new values →
        (names : ℕ → Tree) (holds : Tree → ℕ → Bool) (f : Claim) → Says names n.now (root n.now) f →
        DecidesAtomsBelow k (told_rows values atoms.now) names (passes holds) →
        Decides (value_of values a) (TrueAt k l (passes holds) f 0)) }
    ensures rows { IfOk result (λ a. (values : List Bool) → IsValuation g.new values →
        LassoTells k l (told_rows values atoms.now) n.now 0 (value_of values a)) }
    ensures belongs { IfOk result (Belongs g.new) }
    ensures atoms_belong { RowsBelong g.new atoms.now }
    ensures grows { Grows g.old g.new }
    ensures conjunctions { AddsConjunctions g.old g.new }
{
    let nodes = n.nodes();
    let rows = loop_rows(alloc, g, nodes, atoms, k as usize, l as usize)?;
    Ok(rows[nodes.len() - 1].get(0))
}

/// The rows of all nodes on a lasso.
fn loop_rows(
    alloc: Global,
    g: &mut Gates,
    nodes: &[NnfNode],
    t: &LitTable,
    k: usize,
    l: usize,
) -> Result<Vec<LitRow>, AllocError>
    requires constant { 0 < length g.old }
    requires start { l < k }
    requires ordered { IsOrdered nodes.now }
    requires table { CoversLits t.now (k + 1) nodes.now }
    requires belong { RowsBelong g.old t.now }
    ensures rows { IfOk result (λ rows. (values : List Bool) → IsValuation g.new values →
        AreRows k (lasso_value k l (told_rows values t.now)) nodes.now
        (told_rows values rows.items)) }
    ensures places { IfOk result (λ rows. (i : ℕ) → i < length nodes.now →
        length (lits_at rows.items i) ≡ k) }
    ensures count { IfOk result (λ rows. length rows.items ≡ length nodes.now) }
    ensures belongs { IfOk result (λ rows. RowsBelong g.new rows.items) }
    ensures grows { Grows g.old g.new }
    ensures conjunctions { AddsConjunctions g.old g.new }
{
    let mut rows = Vec::new(alloc);
    for node in nodes {
        let row = loop_row(alloc, g, *node, &rows, t, k, l)?;
        rows.push(row)?;
    }
    Ok(rows)
}

/// The row of a node on a lasso.
fn loop_row(
    alloc: Global,
    g: &mut Gates,
    node: NnfNode,
    rows: &Vec<LitRow>,
    t: &LitTable,
    k: usize,
    l: usize,
) -> Result<LitRow, AllocError>
    requires constant { 0 < length g.old }
    requires start { l < k }
    requires parts { PartsWithin (length rows.now.items) node }
    requires places { (i : ℕ) → i < length rows.now.items → length (lits_at rows.now.items i) ≡ k }
    requires belong { RowsBelong g.old rows.now.items }
    requires atom { AtomWithin (length t.now) node }
    requires states { StatesEach (k + 1) t.now }
    requires table { RowsBelong g.old t.now }
    ensures places { IfOk result (λ row. length row ≡ k) }
    ensures values { IfOk result (λ row. (values : List Bool) → IsValuation g.new values →
        IsRow k (lasso_value k l (told_rows values t.now) (told_rows values rows.now.items) node)
        (values_of values row)) }
    ensures belongs { IfOk result (RowBelongs g.new) }
    ensures grows { Grows g.old g.new }
    ensures conjunctions { AddsConjunctions g.old g.new }
{
    match node {
        NnfNode::Literal(a, negated) => turn(alloc, t.row(a), k, negated),
        NnfNode::And(a, b) => join_rows(alloc, g, &rows[a as usize], &rows[b as usize], false),
        NnfNode::Or(a, b) => join_rows(alloc, g, &rows[a as usize], &rows[b as usize], true),
        NnfNode::Next(a) => next(alloc, &rows[a as usize], l),
        NnfNode::Until(a, b) => around(alloc, g, &rows[a as usize], &rows[b as usize], false, l),
        NnfNode::Releases(a, b) => around(alloc, g, &rows[a as usize], &rows[b as usize], true, l),
        NnfNode::Always(a) => around_whole(alloc, g, &rows[a as usize], true, l),
        NnfNode::Eventually(a) => around_whole(alloc, g, &rows[a as usize], false, l),
    }
}

/// The literal at the next place, which after the last one is the start of the loop.
fn next(alloc: Global, part: &LitRow, l: usize) -> Result<LitRow, AllocError>
    requires { l < length part.now }
    ensures places { IfOk result (λ r. length r ≡ length part.now) }
    ensures literals { (p : ℕ) → p < length part.now →
        IfOk result (λ r. lit_at r p ≡ lit_at part.now (next_place (length part.now) l p)) }
{
    shift(alloc, part, part.get(l))
}
