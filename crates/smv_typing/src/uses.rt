//! What is wrong where an expression is used.
ghost use Rattle.std.specs.Prelude.{◌≡◌, IfOk};
ghost use Rattle.smv_tree.specs.Trees.{expr_tree};
ghost use Rattle.type_fault.specs.First.{earliest};
ghost use Rattle.smv_typing.specs.Uses.{listed, place_in, constraint_scope, constraint_faults, body_faults, actual_fault, actual_faults, type_faults};

use crate::judged::fault_at;
use crate::{DEFINITION, Names, STATE, STEP, Scope, Target, judge};
use smv_kinds::{NodeFault, Typing};
use smv_tree::{Expr, Place, Section, Ty};
use std::alloc::{AllocError, Global};
use type_fault::TypeFault;

/// A fault at a place, if there is one.
#[tactic(auto, unfolding(type_fault::specs::First::earliest))]
pub(crate) fn listed(place: Place, fault: Option<NodeFault>) -> Option<TypeFault>
    ensures { result ≡ earliest (listed place fault) }
{
    match fault {
        Some(fault) => Some(fault_at(place, fault)),
        None => None,
    }
}

/// The place that an expression carries.
pub(crate) fn place_in(e: &Expr) -> Place
    ensures { result ≡ place_in (expr_tree e.now) }
{
    match e {
        Expr::Truth(place, _) => *place,
        Expr::Number(place, _) => *place,
        Expr::Word(place, _) => *place,
        Expr::Name(place, _) => *place,
        Expr::Span(place, _, _) => *place,
        Expr::Set(place, _) => *place,
        Expr::Case(place, _) => *place,
        Expr::If(place, _, _, _) => *place,
        Expr::One(place, _, _) => *place,
        Expr::Two(place, _, _, _) => *place,
        Expr::Select(place, _, _, _) => *place,
        Expr::Next(place, _) => *place,
        Expr::Widen(place, _, _, _) => *place,
        Expr::Const(place, _, _, _) => *place,
        Expr::Count(place, _) => *place,
    }
}

/// What may stand in a constraint.
fn constraint_scope(section: Section) -> Scope
    ensures { result ≡ constraint_scope section }
{
    match section {
        Section::Trans => STEP,
        Section::Init | Section::Invar => STATE,
    }
}

/// The first fault of a constraint, whose place is that of the section word.
#[tactic(auto, unfolding(crate::specs::Uses::constraint_faults))]
pub fn check_constraint<N: Names>(
    alloc: Global,
    names: &N,
    section: Section,
    place: Place,
    e: &Expr,
) -> Result<Option<TypeFault>, AllocError>
    ensures { IfOk result (λ f.
        f ≡ earliest (constraint_faults (N.told names.now) section place (expr_tree e.now))) }
{
    match judge(alloc, names, constraint_scope(section), e)? {
        Ok(typing) => Ok(listed(place, typing.constraint_fault())),
        Err(fault) => Ok(fault),
    }
}

/// The first fault of the body of a define.
#[tactic(auto, unfolding(crate::specs::Uses::body_faults))]
pub fn check_body<N: Names>(
    alloc: Global,
    names: &N,
    e: &Expr,
) -> Result<Option<TypeFault>, AllocError>
    ensures { IfOk result (λ f. f ≡ earliest (body_faults (N.told names.now) (expr_tree e.now))) }
{
    match judge(alloc, names, DEFINITION, e)? {
        Ok(typing) => Ok(listed(place_in(e), typing.body_fault())),
        Err(fault) => Ok(fault),
    }
}

/// What is wrong with an actual parameter of this type: a path alone may name an instance.
fn actual_fault(e: &Expr, typing: Typing) -> Option<NodeFault>
    ensures { result ≡ actual_fault (expr_tree e.now) typing }
{
    match e {
        Expr::Name(..) => None,
        _ => typing.body_fault(),
    }
}

/// The first fault of an actual parameter.
#[tactic(auto, unfolding(crate::specs::Uses::actual_faults))]
pub fn check_actual<N: Names>(
    alloc: Global,
    names: &N,
    e: &Expr,
) -> Result<Option<TypeFault>, AllocError>
    ensures { IfOk result (λ f. f ≡ earliest (actual_faults (N.told names.now) (expr_tree e.now))) }
{
    match judge(alloc, names, DEFINITION, e)? {
        Ok(typing) => Ok(listed(place_in(e), actual_fault(e, typing))),
        Err(fault) => Ok(fault),
    }
}

/// The first fault of a declared type, whose place is that of its first token.
#[tactic(auto, unfolding(crate::specs::Uses::type_faults))]
pub fn check_type(place: Place, ty: &Ty) -> Option<TypeFault>
    ensures { result ≡ earliest (type_faults place ty.now) }
{
    listed(place, smv_kinds::type_fault(ty))
}
