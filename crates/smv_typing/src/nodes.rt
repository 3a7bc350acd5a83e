//! Nodes, from the judgements of their parts.
ghost use Rattle.std.specs.Prelude.{◌≡◌};
ghost use Rattle.smv_typing.specs.Judging.{one_at, two_at, select_at, next_at, widen_at, set_at, count_at, cases_at, choice_at};
ghost use Rattle.smv_typing.specs.Kept.{kept_over};

use crate::judged::at;
use crate::typings::Typings;
use crate::{Judged, Scope};
use smv_kinds::{
    Typing, cases_typing, count_typing, next_typing, one_typing, select_typing, set_typing,
    two_typing, widen_typing,
};
use smv_tree::{Op1, Op2, Place};
use type_fault::TypeFault;

/// An operator or a function of one operand.
#[tactic(auto, unfolding(crate::specs::Kept::kept_over))]
pub(crate) fn one_at(place: Place, operator: Op1, operand: Judged<Typing>) -> Judged<Typing>
    ensures { result ≡ kept_over (one_at place operator) operand }
{
    let operand = operand?;
    at(place, one_typing(operator, operand))
}

/// An operator between two operands.
#[tactic(auto, unfolding(crate::specs::Kept::kept_over))]
pub(crate) fn two_at(
    place: Place,
    operator: Op2,
    operands: Judged<(Typing, Typing)>,
) -> Judged<Typing>
    ensures { result ≡ kept_over (two_at place operator) operands }
{
    let (left, right) = operands?;
    at(place, two_typing(operator, left, right))
}

/// Bits of a word.
#[tactic(auto, unfolding(crate::specs::Kept::kept_over))]
pub(crate) fn select_at(
    place: Place,
    high: u32,
    low: u32,
    operand: Judged<Typing>,
) -> Judged<Typing>
    ensures { result ≡ kept_over (select_at place high low) operand }
{
    let operand = operand?;
    at(place, select_typing(high, low, operand))
}

/// A word with so many bits, or with so many more.
#[tactic(auto, unfolding(crate::specs::Kept::kept_over))]
pub(crate) fn widen_at(
    place: Place,
    resize: bool,
    count: u32,
    operand: Judged<Typing>,
) -> Judged<Typing>
    ensures { result ≡ kept_over (widen_at place resize count) operand }
{
    let operand = operand?;
    at(place, widen_typing(resize, count, operand))
}

/// The value at the next moment.
#[tactic(auto, unfolding(crate::specs::Kept::kept_over, type_fault::specs::First::earliest))]
pub(crate) fn next_at(scope: Scope, place: Place, operand: Judged<Typing>) -> Judged<Typing>
    ensures { result ≡ kept_over (next_at scope place) operand }
{
    let operand = operand?;
    if operand.is_set {
        Err(Some(TypeFault::SetHere(place)))
    } else if scope.next {
        at(place, next_typing(operand))
    } else {
        Err(Some(TypeFault::NextHere(place)))
    }
}

/// A set.
#[tactic(auto, unfolding(crate::specs::Kept::kept_over))]
pub(crate) fn set_at(place: Place, members: Judged<Typings>) -> Judged<Typing>
    ensures { result ≡ kept_over (set_at place) members }
{
    let members = members?;
    at(place, set_typing(members.as_slice()))
}

/// How many are true.
#[tactic(auto, unfolding(crate::specs::Kept::kept_over))]
pub(crate) fn count_at(place: Place, operands: Judged<Typings>) -> Judged<Typing>
    ensures { result ≡ kept_over (count_at place) operands }
{
    let operands = operands?;
    at(place, count_typing(operands.as_slice()))
}

/// The branch that conditions choose.
#[tactic(auto, unfolding(crate::specs::Kept::kept_over))]
pub(crate) fn cases_at(place: Place, branches: Judged<(Typings, Typings)>) -> Judged<Typing>
    ensures { result ≡ kept_over (cases_at place) branches }
{
    let (conditions, values) = branches?;
    at(
        place,
        cases_typing(conditions.as_slice(), values.as_slice()),
    )
}

/// One of two values, which a condition chooses.
#[tactic(auto, unfolding(crate::specs::Kept::kept_over))]
pub(crate) fn choice_at(place: Place, parts: Judged<(Typing, (Typing, Typing))>) -> Judged<Typing>
    ensures { result ≡ kept_over (choice_at place) parts }
{
    let (condition, (value, other)) = parts?;
    at(place, cases_typing(&[condition], &[value, other]))
}
