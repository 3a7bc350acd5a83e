//! What is wrong with the types of an instance.
ghost use Rattle.std.specs.Prelude.{◌≡◌, [], false, IfOk, map, flat_map, slice_get, unwrap_or};
ghost use Rattle.smv_tree.specs.Trees.{expr_tree};
ghost use Rattle.smv_tree.specs.Models.{part_of};
ghost use Rattle.type_fault.specs.First.{earliest};
ghost use Rattle.smv_typing.specs.Uses.{actual_faults};
ghost use Rattle.smv_types.specs.Faults.{assigned_faults, part_faults, parts_faults};
ghost use Rattle.smv_types.specs.Excluded.{AreAgain};

use crate::{VariableType, Variables};
use smv_tree::{Expr, Item, Moment, Name, Place, TypeSyntax};
use smv_typing::{
    Names, Target, check_actual, check_assignment, check_body, check_constraint, check_formula,
    check_type,
};
use std::alloc::{AllocError, Global};
use type_fault::{TypeFault, earlier};

/// The first fault of some actual parameters.
fn actuals_fault<N: Names>(
    alloc: Global,
    names: &N,
    actuals: &[Expr],
) -> Result<Option<TypeFault>, AllocError>
    ensures { IfOk result (λ f. f ≡
        earliest (flat_map (actual_faults (N.told names.now)) (map expr_tree actuals.now))) }
{
    let mut first = None;
    for actual in actuals {
        first = earlier(first, check_actual(alloc, names, actual)?);
    }
    Ok(first)
}

/// The first fault of an assignment to this variable.
#[tactic(auto, unfolding(type_fault::specs::First::earliest))]
fn assigned_fault<N: Names>(
    alloc: Global,
    names: &N,
    variable: Option<VariableType>,
    again: bool,
    moment: Moment,
    place: Place,
    name: &Name,
    value: &Expr,
) -> Result<Option<TypeFault>, AllocError>
    ensures { IfOk result (λ f. f ≡ earliest (assigned_faults (N.told names.now) variable again
        moment place name.now (expr_tree value.now))) }
{
    let Some(VariableType { kind, sort }) = variable else {
        return Ok(None);
    };
    let target = Target { sort, kind, again };
    check_assignment(alloc, names, target, moment, place, name, value)
}

/// The first fault of an item.
fn item_fault<N: Names + Variables>(
    alloc: Global,
    names: &N,
    again: bool,
    item: &Item,
) -> Result<Option<TypeFault>, AllocError>
    ensures { IfOk result (λ f. f ≡ earliest
        (part_faults (N.told names.now) (N.variables names.now) again (part_of item.now))) }
{
    match item {
        Item::Var(_, _, _, TypeSyntax::Plain(ty, place)) => Ok(check_type(*place, ty)),
        Item::Var(_, _, _, TypeSyntax::Instance(_, _, actuals)) => {
            actuals_fault(alloc, names, actuals.as_slice())
        }
        Item::Define(_, _, body) => check_body(alloc, names, body),
        Item::Assign(moment, name, place, value) => {
            let variable = names.variable(name);
            assigned_fault(alloc, names, variable, again, *moment, *place, name, value)
        }
        Item::Constraint(section, place, e) => {
            check_constraint(alloc, names, *section, *place, e)
        }
        Item::Spec(_, place, formula) => check_formula(alloc, names, Some(*place), formula),
    }
}

/// Whether the item of a number is an assignment that an earlier one excludes.
fn is_again(flags: &[bool], number: usize) -> bool
    ensures { result ≡ unwrap_or (slice_get flags.now number) false }
{
    match flags.get(number) {
        Some(again) => *again,
        None => false,
    }
}

/// The first fault of the items of an instance.
pub(crate) fn items_fault<N: Names + Variables>(
    alloc: Global,
    names: &N,
    again: &[bool],
    items: &[Item],
) -> Result<Option<TypeFault>, AllocError>
    requires { AreAgain (map part_of items.now) again.now }
    ensures { IfOk result (λ f. f ≡ earliest
        (parts_faults (N.told names.now) (N.variables names.now) [] (map part_of items.now))) }
{
    let mut first = None;
    for (number, item) in items.iter().enumerate() {
        let fault = item_fault(alloc, names, is_again(again, number), item)?;
        first = earlier(first, fault);
    }
    Ok(first)
}
