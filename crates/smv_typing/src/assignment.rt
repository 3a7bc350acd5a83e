//! What is wrong with an assignment.
ghost use Rattle.std.specs.Prelude.{◌≡◌, ◌++◌, ◌∷◌, [], IfOk};
ghost use Rattle.smv_tree.specs.Trees.{expr_tree};
ghost use Rattle.smv_kinds.specs.Nodes.{assignment_fault};
ghost use Rattle.type_fault.specs.First.{earliest};
ghost use Rattle.smv_typing.specs.Judging.{judged};
ghost use Rattle.smv_typing.specs.Uses.{used, assignment_scope, input_fault, again_fault, frozen_fault, target_faults, assignment_faults};

use crate::uses::listed;
use crate::{Names, STATE, STEP, Scope, Target, judge};
use smv_kinds::Sort;
use smv_tree::{Expr, Kind, Moment, Name, Path, Place};
use std::alloc::{AllocError, Global};
use type_fault::{TypeFault, earlier};

/// What may stand on the right side of an assignment.
fn assignment_scope(moment: Moment) -> Scope
    ensures { result ≡ assignment_scope moment }
{
    match moment {
        Moment::Next => STEP,
        Moment::First | Moment::Each => STATE,
    }
}

/// The path of one name.
fn path_of(alloc: Global, name: &Name) -> Result<Path, AllocError>
    ensures { IfOk result (λ p. p ≡ name.now ∷ []) }
{
    let mut names = Vec::new(alloc);
    names.push(name.copy(alloc)?)?;
    Ok(Path::from_vec(names))
}

/// That an input is assigned.
#[tactic(auto, unfolding(type_fault::specs::First::earliest))]
fn input_fault(
    alloc: Global,
    kind: Kind,
    place: Place,
    name: &Name,
) -> Result<Option<TypeFault>, AllocError>
    ensures { IfOk result (λ f. f ≡ earliest (input_fault kind place name.now)) }
{
    match kind {
        Kind::Input => Ok(Some(TypeFault::InputHere(place, path_of(alloc, name)?))),
        Kind::State | Kind::Frozen => Ok(None),
    }
}

/// That an earlier assignment excludes this one.
#[tactic(auto, unfolding(type_fault::specs::First::earliest))]
fn again_fault(
    alloc: Global,
    again: bool,
    place: Place,
    name: &Name,
) -> Result<Option<TypeFault>, AllocError>
    ensures { IfOk result (λ f. f ≡ earliest (again_fault again place name.now)) }
{
    if again {
        Ok(Some(TypeFault::Assigned(place, name.copy(alloc)?)))
    } else {
        Ok(None)
    }
}

/// That what keeps its first value is assigned later.
#[tactic(auto, unfolding(type_fault::specs::First::earliest))]
fn frozen_fault(
    alloc: Global,
    kind: Kind,
    moment: Moment,
    place: Place,
    name: &Name,
) -> Result<Option<TypeFault>, AllocError>
    ensures { IfOk result (λ f. f ≡ earliest (frozen_fault kind moment place name.now)) }
{
    match (kind, moment) {
        (Kind::Frozen, Moment::Each | Moment::Next) => {
            Ok(Some(TypeFault::FrozenAssigned(place, name.copy(alloc)?)))
        }
        _ => Ok(None),
    }
}

/// The first fault of the variable that is assigned.
fn target_fault(
    alloc: Global,
    target: Target,
    moment: Moment,
    place: Place,
    name: &Name,
) -> Result<Option<TypeFault>, AllocError>
    ensures { IfOk result (λ f. f ≡ earliest (target_faults target moment place name.now)) }
{
    let input = input_fault(alloc, target.kind, place, name)?;
    let again = again_fault(alloc, target.again, place, name)?;
    let frozen = frozen_fault(alloc, target.kind, moment, place, name)?;
    Ok(earlier(input, earlier(again, frozen)))
}

/// The first fault of the right side, where a variable of this kind has its values.
fn right_fault<N: Names>(
    alloc: Global,
    names: &N,
    sort: Sort,
    moment: Moment,
    place: Place,
    e: &Expr,
) -> Result<Option<TypeFault>, AllocError>
    ensures { IfOk result (λ f. f ≡ earliest (used place (assignment_fault sort)
        (judged (N.told names.now) (assignment_scope moment) (expr_tree e.now)))) }
{
    match judge(alloc, names, assignment_scope(moment), e)? {
        Ok(typing) => Ok(listed(place, typing.assignment_fault(sort))),
        Err(fault) => Ok(fault),
    }
}

/// The first fault of an assignment, whose place is that of the assigned name.
#[tactic(auto, unfolding(crate::specs::Uses::assignment_faults))]
pub fn check_assignment<N: Names>(
    alloc: Global,
    names: &N,
    target: Target,
    moment: Moment,
    place: Place,
    name: &Name,
    e: &Expr,
) -> Result<Option<TypeFault>, AllocError>
    ensures { IfOk result (λ f. f ≡ earliest
        (assignment_faults (N.told names.now) target moment place name.now (expr_tree e.now))) }
{
    let right = right_fault(alloc, names, target.sort, moment, place, e)?;
    let target = target_fault(alloc, target, moment, place, name)?;
    Ok(earlier(right, target))
}
