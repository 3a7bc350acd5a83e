#![tactic(auto, using(crate::proofs::Literals::circuits))]

ghost use Rattle.std.specs.Prelude.{◌≡◌, ℕ, ◌+◌, ◌^◌, ◌<◌, Bool, true, List, length, IfOk, Decides};
ghost use Rattle.gates.specs.Nodes.{Grows, AddsConjunctions, Belongs};
ghost use Rattle.gates.specs.Valuation.{value_of, values_of, IsValuation};
ghost use Rattle.smv_tree.specs.Trees.{Tree};
ghost use Rattle.smv_tree.specs.Models.{Claim};
ghost use Rattle.smv_meaning.specs.SettledTruth.{Settled};
ghost use Rattle.ltl_form.specs.Nodes.{Says, PartsWithin, AtomWithin, IsOrdered, root};
ghost use Rattle.ltl_form.specs.Rows.{short_value, IsRow, AreRows, ShortTells};
ghost use Rattle.ltl_form.specs.Tables.{DecidesAtomsBelow, passes};
ghost use Rattle.ltl_bmc.specs.Circuits.{lits_at, told_rows, RowBelongs, RowsBelong};
ghost use Rattle.ltl_bmc.specs.Circuits.{StatesEach, CoversLits};

use crate::literal::constant;
use crate::row::LitRow;
use crate::sweeps::{along, along_both, along_whole, join_rows, shift, turn};
use crate::table::LitTable;
use gates::{Gates, Lit};
use ltl_form::{Nnf, NnfNode};
use std::alloc::{AllocError, Global};

/// A literal that is true where the states 0 to `k` of a path settle that a formula is true at
/// the first place, whatever comes after them and whatever values the literals of its atoms have.
///
/// It makes at most three gates for each node and place.
///
/// Source: Biere, Cimatti, Clarke and Zhu, "Symbolic model checking without BDDs", TACAS 1999.
pub fn encode_short(
    alloc: Global,
    g: &mut Gates,
    n: &Nnf,
    atoms: &LitTable,
    k: u32,
) -> Result<Lit, AllocError>
    requires table { CoversLits atoms.now (k + 1) n.now }
    requires belong { RowsBelong g.old atoms.now }
    ensures truth { IfOk result (λ a. (values : List Bool) → IsValuation g.new values →
        (names : ℕ → Tree) (holds : Tree → ℕ → Bool) (f : Claim) → Says names n.now (root n.now) f →
        DecidesAtomsBelow (k + 1) (told_rows values atoms.now) names (passes holds) →
        Decides (value_of values a) (Settled (passes holds) k f true 0)) }
    ensures rows { IfOk result (λ a. (values : List Bool) → IsValuation g.new values →
        ShortTells k (told_rows values atoms.now) n.now 0 (value_of values a)) }
    ensures belongs { IfOk result (Belongs g.new) }
    ensures atoms_belong { RowsBelong g.new atoms.now }
    ensures grows { Grows g.old g.new }
    ensures conjunctions { AddsConjunctions g.old g.new }
{
    let nodes = n.nodes();
    let rows = path_rows(alloc, g, nodes, atoms, k as usize)?;
    Ok(rows[nodes.len() - 1].get(0))
}

/// The rows of all nodes on a path.
fn path_rows(
    alloc: Global,
    g: &mut Gates,
    nodes: &[NnfNode],
    t: &LitTable,
    k: usize,
) -> Result<Vec<LitRow>, AllocError>
    requires constant { 0 < length g.old }
    requires last { k < 2 ^ 32 }
    requires ordered { IsOrdered nodes.now }
    requires table { CoversLits t.now (k + 1) nodes.now }
    requires belong { RowsBelong g.old t.now }
    ensures rows { IfOk result (λ rows. (values : List Bool) → IsValuation g.new values →
        AreRows (k + 1) (short_value k (told_rows values t.now)) nodes.now
        (told_rows values rows.items)) }
    ensures places { IfOk result (λ rows. (i : ℕ) → i < length nodes.now →
        length (lits_at rows.items i) ≡ k + 1) }
    ensures count { IfOk result (λ rows. length rows.items ≡ length nodes.now) }
    ensures belongs { IfOk result (λ rows. RowsBelong g.new rows.items) }
    ensures grows { Grows g.old g.new }
    ensures conjunctions { AddsConjunctions g.old g.new }
{
    let mut rows = Vec::new(alloc);
    for node in nodes {
        let row = path_row(alloc, g, *node, &rows, t, k)?;
        rows.push(row)?;
    }
    Ok(rows)
}

/// The row of a node on a path.
fn path_row(
    alloc: Global,
    g: &mut Gates,
    node: NnfNode,
    rows: &Vec<LitRow>,
    t: &LitTable,
    k: usize,
) -> Result<LitRow, AllocError>
    requires constant { 0 < length g.old }
    requires last { k < 2 ^ 32 }
    requires parts { PartsWithin (length rows.now.items) node }
    requires places { (i : ℕ) → i < length rows.now.items → length (lits_at rows.now.items i) ≡
        k + 1 }
    requires belong { RowsBelong g.old rows.now.items }
    requires atom { AtomWithin (length t.now) node }
    requires states { StatesEach (k + 1) t.now }
    requires table { RowsBelong g.old t.now }
    ensures places { IfOk result (λ row. length row ≡ k + 1) }
    ensures values { IfOk result (λ row. (values : List Bool) → IsValuation g.new values →
        IsRow (k + 1) (short_value k (told_rows values t.now)
        (told_rows values rows.now.items) node) (values_of values row)) }
    ensures belongs { IfOk result (RowBelongs g.new) }
    ensures grows { Grows g.old g.new }
    ensures conjunctions { AddsConjunctions g.old g.new }
{
    match node {
        NnfNode::Literal(a, negated) => turn(alloc, t.row(a), k + 1, negated),
        NnfNode::And(a, b) => join_rows(alloc, g, &rows[a as usize], &rows[b as usize], false),
        NnfNode::Or(a, b) => join_rows(alloc, g, &rows[a as usize], &rows[b as usize], true),
        NnfNode::Next(a) => shift(alloc, &rows[a as usize], constant(false)),
        NnfNode::Until(a, b) => along(alloc, g, &rows[a as usize], &rows[b as usize]),
        NnfNode::Releases(a, b) => along_both(alloc, g, &rows[a as usize], &rows[b as usize]),
        NnfNode::Always(_) => LitRow::filled(alloc, k + 1, constant(false)),
        NnfNode::Eventually(a) => along_whole(alloc, g, &rows[a as usize]),
    }
}
