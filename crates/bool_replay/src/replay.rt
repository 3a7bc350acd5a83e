ghost use Rattle.std.specs.Prelude.{◌≡◌, ◌<◌, [], ◌∷◌, false, length, map, get_or, slice_index, Option, None, Some};
ghost use Rattle.smv_tree.specs.Trees.{expr_tree};
ghost use Rattle.smv_tree.specs.Models.{part_of};
ghost use Rattle.bool_replay.specs.Evaluation.{bool_at, truth_of, init_cause, step_cause, first_init, first_step, stop_of, stop_behind};

use crate::names::Names;
use crate::verdict::Cause;
use smv_tree::{Expr, Item, Name, Op1, Op2, Section};

/// The truth value of a variable in a state.
#[tactic(auto, using(crate::proofs::EvaluationLemmas::bool_at_position, crate::proofs::EvaluationLemmas::bool_at_nowhere))]
fn value_of(name: &Name, names: &Names, state: &[bool]) -> bool
    ensures { result ≡ bool_at names.now state.now name.now }
{
    match names.index_of(name.as_slice()) {
        Some(index) => state.get(index).copied().unwrap_or(false),
        None => false,
    }
}

/// The truth of a plain expression in a state and the one after it.
fn truth_of(e: &Expr, names: &Names, now: &[bool], later: &[bool]) -> bool
    ensures { result ≡ truth_of names.now now.now later.now (expr_tree e.now) }
{
    match e {
        Expr::Truth(_, value) => *value,
        Expr::Name(_, path) => match path.as_slice() {
            [name] => value_of(name, names, now),
            _ => false,
        },
        Expr::Next(_, operand) => truth_of(operand, names, later, later),
        Expr::One(_, Op1::Not, operand) => !truth_of(operand, names, now, later),
        Expr::Two(_, Op2::Eq, left, right) => {
            truth_of(left, names, now, later) == truth_of(right, names, now, later)
        }
        _ => false,
    }
}

/// The cause that an item is in a first state where it asks for more than holds.
fn init_cause(item: &Item, names: &Names, state: &[bool]) -> Option<Cause>
    ensures { result ≡ init_cause names.now state.now (part_of item.now) }
{
    match item {
        Item::Constraint(Section::Init, place, e) => {
            if truth_of(e, names, state, &[]) {
                None
            } else {
                Some(Cause::Init(*place))
            }
        }
        _ => None,
    }
}

/// The cause that an item is at a step where it asks for more than holds.
fn step_cause(item: &Item, names: &Names, now: &[bool], later: &[bool]) -> Option<Cause>
    ensures { result ≡ step_cause names.now now.now later.now (part_of item.now) }
{
    match item {
        Item::Constraint(Section::Trans, place, e) => {
            if truth_of(e, names, now, later) {
                None
            } else {
                Some(Cause::Trans(*place))
            }
        }
        _ => None,
    }
}

/// The first cause of the items in a first state.
#[tactic(auto, using(crate::proofs::PlainLemmas::map_from))]
fn first_init(items: &[Item], names: &Names, state: &[bool]) -> Option<Cause>
    ensures { result ≡ first_init names.now state.now (map part_of items.now) }
{
    for item in items {
        if let Some(cause) = init_cause(item, names, state) {
            return Some(cause);
        }
    }
    None
}

/// The first cause of the items at a step.
#[tactic(auto, using(crate::proofs::PlainLemmas::map_from))]
fn first_step(items: &[Item], names: &Names, now: &[bool], later: &[bool]) -> Option<Cause>
    ensures { result ≡ first_step names.now now.now later.now (map part_of items.now) }
{
    for item in items {
        if let Some(cause) = step_cause(item, names, now, later) {
            return Some(cause);
        }
    }
    None
}

/// Where the states stop being a run: the number of the state, from 1, and the first cause there.
#[tactic(auto, using(crate::proofs::PlainLemmas::map_from))]
pub(crate) fn stop_of(items: &[Item], names: &Names, states: &[Vec<bool>]) -> Option<(usize, Cause)>
    ensures { result ≡ stop_of names.now (map part_of items.now) (map (λ s. s.items) states.now) }
{
    let (first, others) = states.split_first()?;
    if let Some(cause) = first_init(items, names, first.as_slice()) {
        return Some((1, cause));
    }
    let mut number = 1;
    let mut now = first.as_slice();
    for state in others {
        number += 1;
        if let Some(cause) = first_step(items, names, now, state.as_slice()) {
            return Some((number, cause));
        }
        now = state.as_slice();
    }
    None
}
