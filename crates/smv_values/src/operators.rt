ghost use Rattle.std.specs.Prelude.{◌≡◌};
ghost use Rattle.std.specs.List.{list_any};
ghost use Rattle.smv_meaning.specs.Operators.{by_kind, member, one_value, same_value, two_values};
ghost use Rattle.smv_values.specs.Answers.{kept, told};

use crate::Outcome;
use crate::integers::{one_int, two_ints};
use crate::number::Number;
use crate::truths::{one_truth, two_truths};
use crate::words::{one_word, shifted, two_words};
use smv_tree::{Op1, Op2, Value};

/// Whether two values are the same.
pub fn same_value(a: &Value, b: &Value) -> bool
    ensures { result ≡ same_value a.now b.now }
{
    match (a, b) {
        (Value::Truth(x), Value::Truth(y)) => x == y,
        (Value::Int(x), Value::Int(y)) => x == y,
        (Value::Sym(x), Value::Sym(y)) => x.as_slice() == y.as_slice(),
        (Value::Word(x), Value::Word(y)) => {
            x.signed() == y.signed() && x.width() == y.width() && x.bits() == y.bits()
        }
        _ => false,
    }
}

/// An operator of one operand.
///
/// # Errors
///
/// `TooLarge`, exactly where the program cannot hold the value; so for all that is like it.
pub fn one_value(o: Op1, v: &Value) -> Outcome
    ensures { told result ≡ kept (one_value o v.now) }
{
    match v {
        Value::Truth(b) => one_truth(o, *b),
        Value::Int(n) => one_int(o, *n),
        Value::Word(w) => one_word(o, w),
        Value::Sym(_) => Ok(None),
    }
}

/// An operator that treats values by their kinds.
fn by_kind(o: Op2, a: &Value, b: &Value) -> Outcome
    ensures { told result ≡ kept (by_kind o a.now b.now) }
{
    match (a, b) {
        (Value::Truth(x), Value::Truth(y)) => two_truths(o, *x, *y),
        (Value::Int(x), Value::Int(y)) => two_ints(o, *x, *y),
        (Value::Word(x), Value::Word(y)) => two_words(o, x, y),
        (Value::Word(x), Value::Int(y)) => shifted(o, x, &Number::of_int(*y)),
        _ => Ok(None),
    }
}

/// An operator of two operands that each have one value.
pub fn two_values(o: Op2, a: &Value, b: &Value) -> Outcome
    ensures { told result ≡ kept (two_values o a.now b.now) }
{
    match o {
        Op2::Eq => Ok(Some(Value::Truth(same_value(a, b)))),
        Op2::Ne => Ok(Some(Value::Truth(!same_value(a, b)))),
        _ => by_kind(o, a, b),
    }
}

/// Whether a value is one of these.
fn is_among(a: &Value, values: &[Value]) -> bool
    ensures { result ≡ list_any (same_value a.now) values.now }
{
    values.iter().any(|b| same_value(a, b))
}

/// Whether the one value on the left is among those on the right.
pub fn member(left: &[Value], right: &[Value]) -> Outcome
    ensures { told result ≡ kept (member left.now right.now) }
{
    match left {
        [a] if !right.is_empty() => Ok(Some(Value::Truth(is_among(a, right)))),
        _ => Ok(None),
    }
}
