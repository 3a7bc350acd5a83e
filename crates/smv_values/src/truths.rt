ghost use Rattle.std.specs.Prelude.{◌≡◌};
ghost use Rattle.smv_meaning.specs.Operators.{one_truth, two_truths};
ghost use Rattle.smv_values.specs.Answers.{kept, told};

use crate::Outcome;
use smv_tree::{Op1, Op2, Value, WordVal};

/// An operator of one truth value.
pub(crate) fn one_truth(o: Op1, b: bool) -> Outcome
    ensures { told result ≡ kept (one_truth o b) }
{
    Ok(match o {
        Op1::Not => Some(Value::Truth(!b)),
        Op1::Word1 => Some(Value::Word(WordVal::new(false, 1, b as u128))),
        Op1::Bool => Some(Value::Truth(b)),
        Op1::ToInt => Some(Value::Int(b as i64)),
        _ => None,
    })
}

/// An operator of two truth values.
pub(crate) fn two_truths(o: Op2, a: bool, b: bool) -> Outcome
    ensures { told result ≡ kept (two_truths o a b) }
{
    Ok(match o {
        Op2::And => Some(Value::Truth(a && b)),
        Op2::Or => Some(Value::Truth(a || b)),
        Op2::Xor => Some(Value::Truth(a != b)),
        Op2::Xnor | Op2::Iff => Some(Value::Truth(a == b)),
        Op2::Implies => Some(Value::Truth(!a || b)),
        _ => None,
    })
}
