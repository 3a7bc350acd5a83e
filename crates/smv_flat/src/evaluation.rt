ghost use Rattle.std.specs.Prelude.{map};
ghost use Rattle.smv_flat.specs.Views.{flat_arm, flat_arms, flat_tree, flats};
ghost use Rattle.smv_flat.specs.Lists.{Answers};
ghost use Rattle.smv_flat.specs.Fitting.{all_fitting, each_fitting, first_fitting, fitting_count, fitting_eval};

use crate::copies::{many, push_copies, span};
use crate::nodes::{apply_one, both, counted, integer, named, select, tallied, truth_of, widen};
use crate::value_list::answered;
use crate::{EvalFault, FlatBranch, FlatExpr, Moment, ValueList};
use smv_tree::Value;
use smv_values::word_of;
use std::alloc::Global;

/// The values of several expressions in a row.
#[cycle(eval)]
fn eval_all<'a, M: Moment>(
    alloc: Global,
    now: &'a M,
    later: &'a M,
    es: &'a [FlatExpr],
) -> Result<ValueList<'a>, EvalFault>
    ensures { Answers result
        (all_fitting (M.numbers now.now) (M.numbers later.now) (flats (map flat_tree es.now))) }
{
    let mut all = Vec::new(alloc);
    for e in es {
        match eval_at(alloc, now, later, e) {
            Ok(list) => match push_copies(alloc, &mut all, list.as_slice()) {
                Ok(()) => {}
                Err(fault) => return Err(EvalFault::NoMemory(fault)),
            },
            Err(fault) => return Err(fault),
        }
    }
    Ok(ValueList::Many(all))
}

/// The values of the first branch whose condition is true.
#[cycle(eval)]
fn eval_first<'a, M: Moment>(
    alloc: Global,
    now: &'a M,
    later: &'a M,
    branches: &'a [FlatBranch],
) -> Result<ValueList<'a>, EvalFault>
    ensures { Answers result
        (first_fitting (M.numbers now.now) (M.numbers later.now)
        (flat_arms (map flat_arm branches.now))) }
{
    for branch in branches {
        match eval_at(alloc, now, later, &branch.condition) {
            Ok(list) => {
                if truth_of(list.as_slice()) == Some(true) {
                    return eval_at(alloc, now, later, &branch.value);
                }
            }
            Err(fault) => return Err(fault),
        }
    }
    Ok(ValueList::None)
}

/// How many of several expressions are true, if each is a truth value.
#[cycle(eval)]
fn eval_count<'a, M: Moment>(
    alloc: Global,
    now: &'a M,
    later: &'a M,
    es: &'a [FlatExpr],
) -> Result<ValueList<'a>, EvalFault>
    ensures { Answers result (fitting_count
        (each_fitting (M.numbers now.now) (M.numbers later.now) (flats (map flat_tree es.now)))) }
{
    let mut count = Some(0);
    for e in es {
        match eval_at(alloc, now, later, e) {
            Ok(list) => count = counted(count, list.as_slice()),
            Err(fault) => return Err(fault),
        }
    }
    answered(tallied(count))
}

/// The values of an expression, where names have these values now and those in the next state.
///
/// # Errors
///
/// `TooLarge`, exactly where the program cannot hold the value of an operator that is looked at;
/// `NoMemory`, where memory was refused.
#[cycle(eval)]
pub fn eval_at<'a, M: Moment>(
    alloc: Global,
    now: &'a M,
    later: &'a M,
    e: &'a FlatExpr,
) -> Result<ValueList<'a>, EvalFault>
    ensures { Answers result
        (fitting_eval (M.numbers now.now) (M.numbers later.now) (flat_tree e.now)) }
{
    match e {
        FlatExpr::Truth(_, b) => Ok(ValueList::One(Value::Truth(*b))),
        FlatExpr::Number(_, n) => answered(integer(*n)),
        FlatExpr::Word(_, w) => Ok(ValueList::One(Value::Word(*w))),
        FlatExpr::Name(_, name) => Ok(named(now, name)),
        FlatExpr::Span(_, low, high) => many(span(alloc, *low, *high)),
        FlatExpr::Set(_, es) => eval_all(alloc, now, later, es.as_slice()),
        FlatExpr::Case(_, branches) => eval_first(alloc, now, later, branches.as_slice()),
        FlatExpr::If(_, c, a, b) => match eval_at(alloc, now, later, c) {
            Ok(list) => match truth_of(list.as_slice()) {
                Some(true) => eval_at(alloc, now, later, a),
                Some(false) => eval_at(alloc, now, later, b),
                None => Ok(ValueList::None),
            },
            Err(fault) => Err(fault),
        },
        FlatExpr::One(_, o, a) => apply_one(*o, eval_at(alloc, now, later, a)),
        FlatExpr::Two(_, o, a, b) => match eval_at(alloc, now, later, a) {
            Ok(left) => match eval_at(alloc, now, later, b) {
                Ok(right) => both(alloc, *o, left, right),
                Err(fault) => Err(fault),
            },
            Err(fault) => Err(fault),
        },
        FlatExpr::Select(_, a, high, low) => select(*high, *low, eval_at(alloc, now, later, a)),
        FlatExpr::Next(_, a) => eval_at(alloc, later, later, a),
        FlatExpr::Widen(_, resize, a, n) => widen(*resize, *n, eval_at(alloc, now, later, a)),
        FlatExpr::Const(_, signed, v, n) => answered(word_of(*signed, *n, *v)),
        FlatExpr::Count(_, es) => eval_count(alloc, now, later, es.as_slice()),
    }
}
