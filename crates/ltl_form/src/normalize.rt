ghost use Rattle.std.specs.Prelude.{◌≡◌, ℕ, ◌+◌, ◌*◌, ◌<◌, ◌≤◌, length, IfOk, OnOk};
ghost use Rattle.smv_tree.specs.Trees.{Tree};
ghost use Rattle.smv_tree.specs.Models.{Claim, both};
ghost use Rattle.ltl_form.specs.Nodes.{Says, AtomsWithin, root};
ghost use Rattle.ltl_form.specs.Normal.{normal};
ghost use Rattle.ltl_form.specs.Numbered.{claim_of, AtomsBelow};
ghost use Rattle.ltl_form.specs.Sizes.{compares, size, comparisons, nodes_of_one, nodes_of_two};
ghost use Rattle.ltl_form.specs.Drafts.{Extends, SaysTwo};

use crate::draft::{Draft, Sides, throughout};
use crate::joins::{combine, compare, is_comparison, join, turns_left};
use crate::nnf::Nnf;
use crate::node::NnfNode;
use crate::numbered::NumberedFormula;
use std::alloc::{AllocError, Global};

/// The negation normal form of a formula, or with `negated` of its negation.
///
/// Parts of operators that compare truths are made once as they are and once negated, and all
/// others once; so there are at most two nodes for each atom and operator, and six for one that
/// compares. It recurs as deep as the formula is.
pub fn to_nnf(alloc: Global, f: &NumberedFormula, negated: bool) -> Result<Nnf, AllocError>
    ensures says { (names : ℕ → Tree) → IfOk result (λ n. Says names n (root n) (normal negated
        (claim_of names f.now))) }
    ensures atoms { (m : ℕ) → AtomsBelow m f.now → IfOk result (AtomsWithin m) }
    ensures count { (names : ℕ → Tree) → IfOk result (λ n. length n ≡
        nodes_of_one (claim_of names f.now)) }
    ensures linear { (names : ℕ → Tree) → IfOk result (λ n.
        length n ≤ 2 * size (claim_of names f.now) + 4 * comparisons (claim_of names f.now)) }
    ensures plain { (names : ℕ → Tree) → comparisons (claim_of names f.now) ≡ 0 →
        IfOk result (λ n. length n ≤ size (claim_of names f.now)) }
{
    let mut draft = Draft::new(alloc);
    put_one(&mut draft, f, negated)?;
    Ok(draft.finish())
}

/// Adds the nodes of a formula, or of its negation, and gives the number of the last, which says
/// it.
fn put_one(draft: &mut Draft, f: &NumberedFormula, negated: bool) -> Result<u64, AllocError>
    ensures says { (names : ℕ → Tree) → IfOk result (λ n. Says names draft.new n (normal negated
        (claim_of names f.now))) }
    ensures last { IfOk result (λ n. n + 1 ≡ length draft.new) }
    ensures extends { OnOk result (Extends draft.old draft.new) }
    ensures atoms { (m : ℕ) → AtomsBelow m f.now → AtomsWithin m draft.old →
        OnOk result (AtomsWithin m draft.new) }
    ensures count { (names : ℕ → Tree) → OnOk result (length draft.new ≡
        length draft.old + nodes_of_one (claim_of names f.now)) }
{
    match f {
        NumberedFormula::Atom(a) => draft.add(NnfNode::Literal(*a, negated)),
        NumberedFormula::Not(a) => put_one(draft, a, !negated),
        NumberedFormula::Next(a) => {
            let part = put_one(draft, a, negated)?;
            draft.add(NnfNode::Next(part))
        }
        NumberedFormula::Always(a) => {
            let part = put_one(draft, a, negated)?;
            draft.add(throughout(negated, part))
        }
        NumberedFormula::Eventually(a) => {
            let part = put_one(draft, a, negated)?;
            draft.add(throughout(!negated, part))
        }
        NumberedFormula::Two(op, a, b) => {
            if is_comparison(*op) {
                let first = put_two(draft, a)?;
                let second = put_two(draft, b)?;
                return compare(draft, *op, negated, first, second);
            }
            let first = put_one(draft, a, turns_left(*op, negated))?;
            let second = put_one(draft, b, negated)?;
            draft.add(join(*op, negated, first, second))
        }
    }
}

/// Adds the nodes of a formula and of its negation, and gives the numbers of those that say them.
fn put_two(draft: &mut Draft, f: &NumberedFormula) -> Result<Sides, AllocError>
    ensures says { (names : ℕ → Tree) → IfOk result
        (λ s. SaysTwo names draft.new s.plain s.negated (claim_of names f.now)) }
    ensures plain { IfOk result (λ s. s.plain < length draft.new) }
    ensures negated { IfOk result (λ s. s.negated < length draft.new) }
    ensures extends { OnOk result (Extends draft.old draft.new) }
    ensures atoms { (m : ℕ) → AtomsBelow m f.now → AtomsWithin m draft.old →
        OnOk result (AtomsWithin m draft.new) }
    ensures count { (names : ℕ → Tree) → OnOk result (length draft.new ≡
        length draft.old + nodes_of_two (claim_of names f.now)) }
{
    match f {
        NumberedFormula::Atom(a) => {
            let plain = draft.add(NnfNode::Literal(*a, false))?;
            let negated = draft.add(NnfNode::Literal(*a, true))?;
            Ok(Sides { plain, negated })
        }
        NumberedFormula::Not(a) => {
            let part = put_two(draft, a)?;
            Ok(Sides {
                plain: part.negated,
                negated: part.plain,
            })
        }
        NumberedFormula::Next(a) => {
            let part = put_two(draft, a)?;
            let plain = draft.add(NnfNode::Next(part.plain))?;
            let negated = draft.add(NnfNode::Next(part.negated))?;
            Ok(Sides { plain, negated })
        }
        NumberedFormula::Always(a) => {
            let part = put_two(draft, a)?;
            let plain = draft.add(NnfNode::Always(part.plain))?;
            let negated = draft.add(NnfNode::Eventually(part.negated))?;
            Ok(Sides { plain, negated })
        }
        NumberedFormula::Eventually(a) => {
            let part = put_two(draft, a)?;
            let plain = draft.add(NnfNode::Eventually(part.plain))?;
            let negated = draft.add(NnfNode::Always(part.negated))?;
            Ok(Sides { plain, negated })
        }
        NumberedFormula::Two(op, a, b) => {
            let first = put_two(draft, a)?;
            let second = put_two(draft, b)?;
            let plain = combine(draft, *op, false, first, second)?;
            let negated = combine(draft, *op, true, first, second)?;
            Ok(Sides { plain, negated })
        }
    }
}
