//! Judgements of nodes from those of their parts.
ghost use Rattle.std.specs.Prelude.{◌≡◌, IfOk};
ghost use Rattle.smv_typing.specs.Judging.{fault_at, at, named, pair};
ghost use Rattle.smv_typing.specs.Firsts.{firsts};
ghost use Rattle.smv_typing.specs.Kept.{kept_both, behind, arm_behind};

use crate::typings::Typings;
use crate::{Scope, Standing};
use smv_kinds::{NodeFault, Typing};
use smv_tree::{Path, Place};
use std::alloc::{AllocError, Global};
use type_fault::{TypeFault, earlier};

/// What is found where nothing is wrong, or the first fault. `Err(None)` is a name of what is itself
/// at fault, and nothing else is wrong.
pub type Judged<T> = Result<T, Option<TypeFault>>;

/// A fault of a node, at its place.
pub(crate) fn fault_at(place: Place, fault: NodeFault) -> TypeFault
    ensures { result ≡ fault_at place fault }
{
    match fault {
        NodeFault::Operands(left, right) => TypeFault::Operands(place, left, right),
        NodeFault::SetHere => TypeFault::SetHere(place),
        NodeFault::Reversed => TypeFault::Reversed(place),
        NodeFault::Width => TypeFault::Width(place),
        NodeFault::Interval(end) => TypeFault::Interval(place, end),
    }
}

/// A node whose parts are well.
#[tactic(auto, unfolding(type_fault::specs::First::earliest))]
pub(crate) fn at(place: Place, typing: Result<Typing, NodeFault>) -> Judged<Typing>
    ensures { result ≡ firsts (at place typing) }
{
    match typing {
        Ok(typing) => Ok(typing),
        Err(fault) => Err(Some(fault_at(place, fault))),
    }
}

/// A name.
#[tactic(auto, unfolding(type_fault::specs::First::earliest))]
pub(crate) fn named(
    alloc: Global,
    scope: Scope,
    place: Place,
    path: &Path,
    standing: Standing,
) -> Result<Judged<Typing>, AllocError>
    ensures { IfOk result (λ j. j ≡ firsts (named scope place path.now standing)) }
{
    match standing {
        Standing::Typed(_, true) if !scope.inputs => {
            let path = path.copy(alloc)?;
            Ok(Err(Some(TypeFault::InputHere(place, path))))
        }
        Standing::Typed(typing, _) => Ok(Ok(typing)),
        Standing::Faulty => Ok(Err(None)),
    }
}

/// Two parts.
#[tactic(auto, unfolding(crate::specs::Kept::kept_both))]
pub(crate) fn pair<A: Drop, B: Drop>(left: Judged<A>, right: Judged<B>) -> Judged<(A, B)>
    ensures { result ≡ kept_both pair left right }
{
    match (left, right) {
        (Ok(left), Ok(right)) => Ok((left, right)),
        (Ok(_), Err(fault)) => Err(fault),
        (Err(fault), Ok(_)) => Err(fault),
        (Err(first), Err(second)) => Err(earlier(first, second)),
    }
}

/// Parts, and one more behind them.
#[tactic(auto, unfolding(crate::specs::Kept::kept_both))]
pub(crate) fn append(
    parts: Judged<Typings>,
    part: Judged<Typing>,
) -> Result<Judged<Typings>, AllocError>
    ensures { IfOk result (λ j. j ≡ kept_both behind parts part) }
{
    match (parts, part) {
        (Ok(mut typings), Ok(typing)) => {
            typings.push(typing)?;
            Ok(Ok(typings))
        }
        (Ok(_), Err(fault)) => Ok(Err(fault)),
        (Err(fault), Ok(_)) => Ok(Err(fault)),
        (Err(first), Err(second)) => Ok(Err(earlier(first, second))),
    }
}

/// Branches, and one more behind them.
#[tactic(auto, unfolding(crate::specs::Kept::kept_both))]
pub(crate) fn append_branch(
    branches: Judged<(Typings, Typings)>,
    branch: Judged<(Typing, Typing)>,
) -> Result<Judged<(Typings, Typings)>, AllocError>
    ensures { IfOk result (λ j. j ≡ kept_both arm_behind branches branch) }
{
    match (branches, branch) {
        (Ok((mut conditions, mut values)), Ok((condition, value))) => {
            conditions.push(condition)?;
            values.push(value)?;
            Ok(Ok((conditions, values)))
        }
        (Ok(_), Err(fault)) => Ok(Err(fault)),
        (Err(fault), Ok(_)) => Ok(Err(fault)),
        (Err(first), Err(second)) => Ok(Err(earlier(first, second))),
    }
}
