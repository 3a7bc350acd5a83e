ghost use Rattle.std.specs.Prelude.{◌≡◌, ◌↔◌, ◌∷◌, [], true, IsTrue, option_map};
ghost use Rattle.smv_tree.specs.declared.value.Value.TheVariants.{Truth};
ghost use Rattle.smv_flat.specs.Views.{flat_tree};
ghost use Rattle.smv_flat.specs.Fitting.{fitting_eval};
ghost use Rattle.smv_flat.specs.FlatModels.{model_of};
ghost use Rattle.smv_flat.specs.Moments.{all_defs, fitting_at};
ghost use Rattle.smv_flat.specs.Answers.{Gives, Decides};
ghost use Rattle.smv_flat.specs.Given.{given};

use crate::copies::into_vec;
use crate::evaluation::eval_at;
use crate::state::{given_input, given_state};
use crate::{DefinitionTable, EvalFault, Flat, FlatExpr, Input, Moment, State};
use smv_tree::{Value, Values};
use std::alloc::Global;

/// Whether the values are the one value `TRUE`.
fn is_true(values: &[Value]) -> bool
    ensures { IsTrue result ↔ (values.now ≡ Truth true ∷ []) }
{
    match values {
        [Value::Truth(b)] => *b,
        _ => false,
    }
}

/// Whether an expression has the one value `TRUE`, where names have these values now and those in
/// the next state.
///
/// # Errors
///
/// As `eval_at`.
pub fn holds_at<M: Moment>(
    alloc: Global,
    now: &M,
    later: &M,
    e: &FlatExpr,
) -> Result<bool, EvalFault>
    ensures { Decides result
        (fitting_eval (M.numbers now.now) (M.numbers later.now) (flat_tree e.now)) }
{
    match eval_at(alloc, now, later, e) {
        Ok(list) => Ok(is_true(list.as_slice())),
        Err(fault) => Err(fault),
    }
}

/// The values of an expression as a list of their own.
fn listed<M: Moment>(alloc: Global, now: &M, later: &M, e: &FlatExpr) -> Result<Values, EvalFault>
    ensures { Gives (λ vs. vs) result
        (fitting_eval (M.numbers now.now) (M.numbers later.now) (flat_tree e.now)) }
{
    match eval_at(alloc, now, later, e) {
        Ok(list) => match into_vec(alloc, list) {
            Ok(all) => Ok(Values::from_vec(all)),
            Err(fault) => Err(EvalFault::NoMemory(fault)),
        },
        Err(fault) => Err(fault),
    }
}

/// The table of the definitions in a state and an input.
fn filled(
    alloc: Global,
    flat: &Flat,
    state: &[Value],
    input: &[Value],
) -> Result<DefinitionTable, EvalFault>
    ensures { Gives (λ t. t) result (all_defs (model_of flat.now) state.now input.now) }
{
    let mut table = DefinitionTable::new(alloc);
    match table.fill(alloc, flat, state, input) {
        Ok(()) => Ok(table),
        Err(fault) => Err(fault),
    }
}

/// The values of an expression in a state, an input and a next state.
///
/// # Errors
///
/// `TooLarge`, exactly where the program cannot hold a value of the expression or of a definition;
/// `NoMemory`, where memory was refused.
pub fn eval(
    alloc: Global,
    flat: &Flat,
    e: &FlatExpr,
    s: &State,
    i: Option<&Input>,
    t: Option<&State>,
) -> Result<Values, EvalFault>
    ensures { Gives (λ vs. vs) result (fitting_at (model_of flat.now) s.now
        (given (option_map (λ x. x.now) i.entry)) (given (option_map (λ x. x.now) t.entry))
        (flat_tree e.now)) }
{
    let (state, input, next) = (s.as_slice(), given_input(i), given_state(t));
    match filled(alloc, flat, state, input) {
        Ok(now) => match filled(alloc, flat, next, &[]) {
            Ok(later) => listed(
                alloc,
                &now.moment_of(flat, state, input),
                &later.moment_of(flat, next, &[]),
                e,
            ),
            Err(fault) => Err(fault),
        },
        Err(fault) => Err(fault),
    }
}

/// Whether an expression holds in a state, an input and a next state: its list of values is exactly
/// `TRUE`.
///
/// # Errors
///
/// As `eval`.
pub fn holds(
    alloc: Global,
    flat: &Flat,
    e: &FlatExpr,
    s: &State,
    i: Option<&Input>,
    t: Option<&State>,
) -> Result<bool, EvalFault>
    ensures { Decides result (fitting_at (model_of flat.now) s.now
        (given (option_map (λ x. x.now) i.entry)) (given (option_map (λ x. x.now) t.entry))
        (flat_tree e.now)) }
{
    match eval(alloc, flat, e, s, i, t) {
        Ok(values) => Ok(is_true(values.as_slice())),
        Err(fault) => Err(fault),
    }
}
