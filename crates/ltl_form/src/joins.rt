ghost use Rattle.std.specs.Prelude.{◌≡◌, ℕ, ◌+◌, ◌<◌, true, if◌then◌else◌, length, IfOk, OnOk};
ghost use Rattle.smv_tree.specs.Trees.{Tree};
ghost use Rattle.smv_tree.specs.Models.{Claim, both};
ghost use Rattle.ltl_form.specs.Nodes.{Says, AtomsWithin};
ghost use Rattle.ltl_form.specs.Normal.{normal};
ghost use Rattle.ltl_form.specs.Sizes.{compares};
ghost use Rattle.ltl_form.specs.Drafts.{Extends, SaysTwo, left_negated, joined_node, equal_asked};

use crate::draft::{Draft, Sides};
use crate::node::NnfNode;
use smv_tree::FormOp;
use std::alloc::AllocError;

/// Whether an operator compares two truths.
pub(crate) fn is_comparison(op: FormOp) -> bool
    ensures { result ≡ compares op }
{
    matches!(op, FormOp::Xor | FormOp::Xnor | FormOp::Iff)
}

/// Whether the left part is negated where the formula is to be, or is not.
pub(crate) fn turns_left(op: FormOp, negated: bool) -> bool
    ensures { result ≡ left_negated op negated }
{
    matches!(op, FormOp::Implies) != negated
}

/// The node of an operator that does not compare, or of its negation.
pub(crate) fn join(op: FormOp, negated: bool, first: u64, second: u64) -> NnfNode
    ensures { result ≡ joined_node op negated first second }
{
    match (op, negated) {
        (FormOp::Or | FormOp::Implies, false) | (FormOp::And, true) => NnfNode::Or(first, second),
        (FormOp::Until, false) | (FormOp::Releases, true) => NnfNode::Until(first, second),
        (FormOp::Releases, false) | (FormOp::Until, true) => NnfNode::Releases(first, second),
        _ => NnfNode::And(first, second),
    }
}

/// Whether an operator that compares, or its negation, asks that its parts are equal.
fn asks_equal(op: FormOp, negated: bool) -> bool
    ensures { result ≡ equal_asked op negated }
{
    matches!(op, FormOp::Xor) == negated
}

/// Adds the nodes that say that two truths are equal, or that they differ.
pub(crate) fn compare(
    draft: &mut Draft,
    op: FormOp,
    negated: bool,
    first: Sides,
    second: Sides,
) -> Result<u64, AllocError>
    requires comparison { compares op ≡ true }
    requires first_plain { first.plain < length draft.old }
    requires first_negated { first.negated < length draft.old }
    requires second_plain { second.plain < length draft.old }
    requires second_negated { second.negated < length draft.old }
    ensures says { (names : ℕ → Tree) (f g : Claim) →
        SaysTwo names draft.old first.plain first.negated f →
        SaysTwo names draft.old second.plain second.negated g →
        IfOk result (λ n. Says names draft.new n (normal negated (both op f g))) }
    ensures last { IfOk result (λ n. n + 1 ≡ length draft.new) }
    ensures extends { OnOk result (Extends draft.old draft.new) }
    ensures atoms { (m : ℕ) → AtomsWithin m draft.old → OnOk result (AtomsWithin m draft.new) }
    ensures count { OnOk result (length draft.new ≡ length draft.old + 3) }
{
    let equal = asks_equal(op, negated);
    let both = draft.add(NnfNode::And(first.plain, second.side(!equal)))?;
    let neither = draft.add(NnfNode::And(first.negated, second.side(equal)))?;
    draft.add(NnfNode::Or(both, neither))
}

/// Adds what says an operator, or its negation, over parts of which both sides are there.
pub(crate) fn combine(
    draft: &mut Draft,
    op: FormOp,
    negated: bool,
    first: Sides,
    second: Sides,
) -> Result<u64, AllocError>
    requires first_plain { first.plain < length draft.old }
    requires first_negated { first.negated < length draft.old }
    requires second_plain { second.plain < length draft.old }
    requires second_negated { second.negated < length draft.old }
    ensures says { (names : ℕ → Tree) (f g : Claim) →
        SaysTwo names draft.old first.plain first.negated f →
        SaysTwo names draft.old second.plain second.negated g →
        IfOk result (λ n. Says names draft.new n (normal negated (both op f g))) }
    ensures last { IfOk result (λ n. n + 1 ≡ length draft.new) }
    ensures extends { OnOk result (Extends draft.old draft.new) }
    ensures atoms { (m : ℕ) → AtomsWithin m draft.old → OnOk result (AtomsWithin m draft.new) }
    ensures count { OnOk result (length draft.new ≡ length draft.old +
        (if compares op then 3 else 1)) }
{
    if is_comparison(op) {
        return compare(draft, op, negated, first, second);
    }
    let left = first.side(turns_left(op, negated));
    draft.add(join(op, negated, left, second.side(negated)))
}
