ghost use Rattle.std.specs.Prelude.{◌≡◌, [], ◌∷◌, ℤ};
ghost use Rattle.std.specs.Int.{w64};
ghost use Rattle.std.specs.Int.RustNames.{FitsSigned};
ghost use Rattle.std.specs.Option.{SomeIff};
ghost use Rattle.smv_tree.specs.declared.value.Value.TheVariants.{Int as Integer};
ghost use Rattle.smv_meaning.specs.Operators.{one_int, two_ints};
ghost use Rattle.smv_values.specs.Answers.{is_narrow, kept, told};

use crate::number::Number;
use crate::{Outcome, TooLarge};
use smv_tree::{Op1, Op2, Value};

/// The integer that a checked operation gave, if it has 64 bits.
fn fitting(n: Option<i64>) -> Outcome
    ensures { (z : ℤ) → SomeIff n (FitsSigned w64 z) z → told result ≡ kept (Integer z ∷ []) }
{
    match n {
        Some(n) => Ok(Some(Value::Int(n))),
        None => Err(TooLarge),
    }
}

/// A quotient, which truncates towards zero.
fn quotient(a: i64, b: i64) -> Outcome
    ensures { told result ≡ kept (two_ints Op2.Div a b) }
{
    let divisor = Number::of_int(b);
    if divisor.is_zero() {
        Ok(None)
    } else {
        Number::of_int(a).quotient(&divisor).to_int()
    }
}

/// A remainder, which has the sign of the dividend.
fn remainder(a: i64, b: i64) -> Outcome
    ensures { told result ≡ kept (two_ints Op2.Mod a b) }
{
    let divisor = Number::of_int(b);
    if divisor.is_zero() {
        Ok(None)
    } else {
        Number::of_int(a).remainder(&divisor).to_int()
    }
}

/// An operator of one integer.
pub(crate) fn one_int(o: Op1, n: i64) -> Outcome
    ensures { told result ≡ kept (one_int o n) }
{
    match o {
        Op1::Neg => fitting(n.checked_neg()),
        Op1::Bool => Ok(Some(Value::Truth(n != 0))),
        Op1::ToInt => Ok(Some(Value::Int(n))),
        _ => Ok(None),
    }
}

/// An operator of two integers.
pub(crate) fn two_ints(o: Op2, a: i64, b: i64) -> Outcome
    ensures { told result ≡ kept (two_ints o a b) }
{
    match o {
        Op2::Add => fitting(a.checked_add(b)),
        Op2::Sub => fitting(a.checked_sub(b)),
        Op2::Mul => fitting(a.checked_mul(b)),
        Op2::Div => quotient(a, b),
        Op2::Mod => remainder(a, b),
        Op2::Lt => Ok(Some(Value::Truth(a < b))),
        Op2::Gt => Ok(Some(Value::Truth(a > b))),
        Op2::Le => Ok(Some(Value::Truth(a <= b))),
        Op2::Ge => Ok(Some(Value::Truth(a >= b))),
        _ => Ok(None),
    }
}
