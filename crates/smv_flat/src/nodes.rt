//! What single nodes make of the values of their parts.
ghost use Rattle.std.specs.Prelude.{◌≡◌, ◌∷◌, [], ◌<◌, ◌^◌, pos, List, Option, IfSome};
ghost use Rattle.smv_tree.specs.declared.value.Value.{Value as SmvValue};
ghost use Rattle.smv_tree.specs.declared.value.Value.TheVariants.{Int};
ghost use Rattle.smv_meaning.specs.Operators.{one_value, two_values, selected, widened};
ghost use Rattle.smv_meaning.specs.Values.{on_one, on_two};
ghost use Rattle.smv_meaning.specs.FlatTrees.{name_values};
ghost use Rattle.smv_values.specs.Answers.{kept, told};
ghost use Rattle.smv_flat.specs.Views.{flat_name};
ghost use Rattle.smv_flat.specs.Lists.{values_of, Answers};
ghost use Rattle.smv_flat.specs.Fitting.{fitting_both, truth_of, with_values};
ghost use Rattle.smv_flat.specs.Counts.{count_more, count_values};

use crate::copies::{joined, many};
use crate::value_list::answered;
use crate::{EvalFault, FlatName, Moment, ValueList};
use smv_tree::{Op1, Op2, Value};
use smv_values::{Outcome, TooLarge, member, one_value, selected, two_values, widened};
use std::alloc::Global;
use std::slice;

/// The integer of a constant or a count.
pub(crate) fn integer(n: u64) -> Outcome
    ensures { told result ≡ kept (Int (pos n) ∷ []) }
{
    if n <= i64::MAX as u64 {
        Ok(Some(Value::Int(n as i64)))
    } else {
        Err(TooLarge)
    }
}

/// The values of a name.
pub(crate) fn named<'a, M: Moment>(now: &'a M, name: &'a FlatName) -> ValueList<'a>
    ensures { values_of result ≡ name_values (M.numbers now.now) (flat_name name.now) }
{
    match name {
        FlatName::Variable(number) => ValueList::Shown(now.variable(*number)),
        FlatName::Definition(number) => ValueList::Shown(now.definition(*number)),
        FlatName::Symbol(symbol) => ValueList::Shown(slice::from_ref(symbol.value())),
    }
}

/// The one truth value.
pub(crate) fn truth_of(values: &[Value]) -> Option<bool>
    ensures { result ≡ truth_of values.now }
{
    match values {
        [Value::Truth(b)] => Some(*b),
        _ => None,
    }
}

fn one_of(o: Op1, values: &[Value]) -> Outcome
    ensures { told result ≡ kept (on_one (one_value o) values.now) }
{
    match values {
        [v] => one_value(o, v),
        _ => Ok(None),
    }
}

fn selected_of(high: u32, low: u32, values: &[Value]) -> Outcome
    ensures { told result ≡ kept (on_one (selected high low) values.now) }
{
    match values {
        [v] => selected(high, low, v),
        _ => Ok(None),
    }
}

fn widened_of(resize: bool, n: u32, values: &[Value]) -> Outcome
    ensures { told result ≡ kept (on_one (widened resize n) values.now) }
{
    match values {
        [v] => widened(resize, n, v),
        _ => Ok(None),
    }
}

/// An operator of one operand.
pub(crate) fn apply_one<'a>(
    o: Op1,
    a: Result<ValueList<'a>, EvalFault>,
) -> Result<ValueList<'a>, EvalFault>
    ensures { (found : Option (List SmvValue)) → Answers a.entry found →
        Answers result (with_values found (λ vs. kept (on_one (one_value o) vs))) }
{
    match a {
        Ok(list) => answered(one_of(o, list.as_slice())),
        Err(fault) => Err(fault),
    }
}

/// The bits of an operand from the low to the high one.
pub(crate) fn select<'a>(
    high: u32,
    low: u32,
    a: Result<ValueList<'a>, EvalFault>,
) -> Result<ValueList<'a>, EvalFault>
    ensures { (found : Option (List SmvValue)) → Answers a.entry found →
        Answers result (with_values found (λ vs. kept (on_one (selected high low) vs))) }
{
    match a {
        Ok(list) => answered(selected_of(high, low, list.as_slice())),
        Err(fault) => Err(fault),
    }
}

/// An operand with more bits, or resized.
pub(crate) fn widen<'a>(
    resize: bool,
    n: u32,
    a: Result<ValueList<'a>, EvalFault>,
) -> Result<ValueList<'a>, EvalFault>
    ensures { (found : Option (List SmvValue)) → Answers a.entry found →
        Answers result (with_values found (λ vs. kept (on_one (widened resize n) vs))) }
{
    match a {
        Ok(list) => answered(widened_of(resize, n, list.as_slice())),
        Err(fault) => Err(fault),
    }
}

fn two_of(o: Op2, left: &[Value], right: &[Value]) -> Outcome
    ensures { told result ≡ kept (on_two (two_values o) left.now right.now) }
{
    match (left, right) {
        ([a], [b]) => two_values(o, a, b),
        _ => Ok(None),
    }
}

/// An operator of two operands.
pub(crate) fn both<'a>(
    alloc: Global,
    o: Op2,
    left: ValueList<'a>,
    right: ValueList<'a>,
) -> Result<ValueList<'a>, EvalFault>
    ensures { Answers result (fitting_both o (values_of left.entry) (values_of right.entry)) }
{
    match o {
        Op2::Union => many(joined(alloc, left, right)),
        Op2::In => answered(member(left.as_slice(), right.as_slice())),
        _ => answered(two_of(o, left.as_slice(), right.as_slice())),
    }
}

/// One operand more of a count.
pub(crate) fn counted(count: Option<usize>, values: &[Value]) -> Option<usize>
    requires { IfSome count (λ n. n < 2 ^ 63) }
    ensures { result ≡ count_more count (truth_of values.now) }
{
    match (count, truth_of(values)) {
        (Some(n), Some(true)) => Some(n + 1),
        (Some(n), Some(false)) => Some(n),
        _ => None,
    }
}

/// The integer of a count, if there is one.
pub(crate) fn tallied(count: Option<usize>) -> Outcome
    ensures { told result ≡ kept (count_values count) }
{
    match count {
        Some(n) => integer(n as u64),
        None => Ok(None),
    }
}
