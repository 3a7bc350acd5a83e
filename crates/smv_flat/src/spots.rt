//! Where the values of variables stand: each kind's, in the order of the variables.
ghost use Rattle.std.specs.Prelude.{◌≡◌, [], map, unwrap_or, slice_get, IfOk};
ghost use Rattle.smv_meaning.specs.Values.{is_of_state};
ghost use Rattle.smv_flat.specs.FlatModels.{model_of, variable_of};
ghost use Rattle.smv_flat.specs.Slots.{slots_of};
ghost use Rattle.smv_flat.specs.Spots.{one_at, spots, at_spot};

use crate::{Flat, FlatVar};
use smv_tree::{Kind, Value};
use std::alloc::{AllocError, Global};
use std::slice;

/// A place in a state, or in an input.
#[derive(Clone, Copy, Debug, PartialEq, Eq)]
pub(crate) enum Spot {
    State(usize),
    Input(usize),
}

/// Whether a state has the values of variables of this kind.
fn is_of_state(kind: Kind) -> bool
    ensures { result ≡ is_of_state kind }
{
    match kind {
        Kind::State | Kind::Frozen => true,
        Kind::Input => false,
    }
}

/// The spots of variables.
pub(crate) fn spots(alloc: Global, vars: &[FlatVar]) -> Result<Vec<Spot>, AllocError>
    ensures { IfOk result (λ v. v.items ≡ spots 0 0 (map variable_of vars.now)) }
{
    let mut all = Vec::new(alloc);
    let mut states = 0;
    let mut inputs = 0;
    for var in vars {
        if is_of_state(var.kind) {
            all.push(Spot::State(states))?;
            states += 1;
        } else {
            all.push(Spot::Input(inputs))?;
            inputs += 1;
        }
    }
    Ok(all)
}

/// The value at a place, or none behind the end.
fn one_at(values: &[Value], place: usize) -> &[Value]
    ensures { result.now ≡ one_at values.now place }
{
    match values.get(place) {
        Some(value) => slice::from_ref(value),
        None => &[],
    }
}

/// The value at a spot, if there is one.
fn at_spot<'a>(state: &'a [Value], input: &'a [Value], spot: Option<Spot>) -> &'a [Value]
    ensures { result.now ≡ at_spot state.now input.now spot }
{
    match spot {
        Some(Spot::State(place)) => one_at(state, place),
        Some(Spot::Input(place)) => one_at(input, place),
        None => &[],
    }
}

/// The value of a variable in a state and an input.
#[tactic(auto, using(crate::proofs::Slots::spot_law))]
pub(crate) fn slot<'a>(
    flat: &Flat,
    state: &'a [Value],
    input: &'a [Value],
    number: u32,
) -> &'a [Value]
    ensures { result.now
        ≡ unwrap_or (slice_get (slots_of (model_of flat.now).vars state.now input.now) number) [] }
{
    at_spot(state, input, flat.spot(number))
}
