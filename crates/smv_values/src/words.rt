//! Operators of words.
ghost use Rattle.std.specs.Prelude.{◌≡◌, ◌≤◌, ◌+◌, ◌*◌, ◌%◌, ◌^◌, [], ◌∷◌, int_lt};
ghost use Rattle.smv_tree.specs.Word.{word_number};
ghost use Rattle.smv_tree.specs.declared.value.Value.TheVariants.{Word as Bits};
ghost use Rattle.smv_meaning.specs.Operators.{one_word, two_words, shifted, with_bits};
ghost use Rattle.smv_values.specs.Answers.{kept, told};

use crate::bits::{ones, shifted_left};
use crate::made::{turned, word, wrapped};
use crate::number::{Number, difference, product, sum};
use crate::{Outcome, TooLarge};
use smv_tree::{Op1, Op2, Value, WordVal};

/// An operator of one word.
pub(crate) fn one_word(o: Op1, w: &WordVal) -> Outcome
    ensures { told result ≡ kept (one_word o w.now) }
{
    match o {
        Op1::Not => turned(w.signed(), w.width(), w.bits()),
        Op1::Neg => wrapped(
            w.signed(),
            w.width(),
            Number::of_word(w).negated().residue(),
        ),
        Op1::Bool => Ok(Some(Value::Truth(w.bits() != 0))),
        Op1::Signed => word(true, w.width(), w.bits()),
        Op1::Unsigned => word(false, w.width(), w.bits()),
        Op1::ToInt => Number::of_word(w).to_int(),
        Op1::Word1 => Ok(None),
    }
}

/// The bits of the first word above those of the second.
#[tactic(auto, using(crate::proofs::Wraps::joined))]
fn joined(a: &WordVal, b: &WordVal) -> u128
    requires { a.now.width + b.now.width ≤ 128 }
    ensures { result ≡ a.now.bits * 2 ^ b.now.width + b.now.bits }
{
    shifted_left(a.bits(), b.width()) + b.bits()
}

fn concatenated(a: &WordVal, b: &WordVal) -> Outcome
    ensures { told result ≡ kept (two_words Op2.Concat a.now b.now) }
{
    let width = a.width() as u16 + b.width() as u16;
    if width > 128 {
        return Err(TooLarge);
    }
    word(false, width as u8, joined(a, b))
}

fn added(a: &WordVal, b: &WordVal) -> Outcome
    ensures { told result ≡ kept (two_words Op2.Add a.now b.now) }
{
    let residue = sum(&Number::of_word(a), &Number::of_word(b));
    wrapped(a.signed(), a.width(), residue)
}

fn subtracted(a: &WordVal, b: &WordVal) -> Outcome
    ensures { told result ≡ kept (two_words Op2.Sub a.now b.now) }
{
    let residue = difference(&Number::of_word(a), &Number::of_word(b));
    wrapped(a.signed(), a.width(), residue)
}

fn multiplied(a: &WordVal, b: &WordVal) -> Outcome
    ensures { told result ≡ kept (two_words Op2.Mul a.now b.now) }
{
    let residue = product(&Number::of_word(a), &Number::of_word(b));
    wrapped(a.signed(), a.width(), residue)
}

fn divided(a: &WordVal, b: &WordVal) -> Outcome
    ensures { told result ≡ kept (two_words Op2.Div a.now b.now) }
{
    let divisor = Number::of_word(b);
    if divisor.is_zero() {
        Ok(None)
    } else {
        let quotient = Number::of_word(a).quotient(&divisor);
        wrapped(a.signed(), a.width(), quotient.residue())
    }
}

fn left_over(a: &WordVal, b: &WordVal) -> Outcome
    ensures { told result ≡ kept (two_words Op2.Mod a.now b.now) }
{
    let divisor = Number::of_word(b);
    if divisor.is_zero() {
        Ok(None)
    } else {
        let remainder = Number::of_word(a).remainder(&divisor);
        wrapped(a.signed(), a.width(), remainder.residue())
    }
}

/// The bits of a word, moved up by n.
fn moved_up(w: &WordVal, n: u8) -> Outcome
    ensures { told result ≡
        kept (Bits (with_bits w.now (w.now.bits * 2 ^ n % 2 ^ w.now.width)) ∷ []) }
{
    wrapped(w.signed(), w.width(), shifted_left(w.bits(), n))
}

fn shifted_up(w: &WordVal, by: &Number) -> Outcome
    ensures { told result ≡ kept (shifted Op2.Shl w.now by.now) }
{
    match by.amount(w.width()) {
        Some(n) => moved_up(w, n),
        None => Ok(None),
    }
}

fn shifted_down(w: &WordVal, by: &Number) -> Outcome
    ensures { told result ≡ kept (shifted Op2.Shr w.now by.now) }
{
    match by.amount(w.width()) {
        Some(n) => {
            let quotient = Number::of_word(w).shifted_down(n);
            wrapped(w.signed(), w.width(), quotient.residue())
        }
        None => Ok(None),
    }
}

/// A shift of a word by a number of bits.
pub(crate) fn shifted(o: Op2, w: &WordVal, by: &Number) -> Outcome
    ensures { told result ≡ kept (shifted o w.now by.now) }
{
    match o {
        Op2::Shl => shifted_up(w, by),
        Op2::Shr => shifted_down(w, by),
        _ => Ok(None),
    }
}

fn implied(a: &WordVal, b: &WordVal) -> Outcome
    ensures { told result ≡ kept (two_words Op2.Implies a.now b.now) }
{
    if a.width() > 128 {
        return Err(TooLarge);
    }
    word(
        a.signed(),
        a.width(),
        (ones(a.width()) - a.bits()) | b.bits(),
    )
}

/// Whether the number of the first word is less than that of the second.
fn is_less(a: &WordVal, b: &WordVal) -> bool
    ensures { result ≡ int_lt (word_number a.now) (word_number b.now) }
{
    Number::of_word(a).is_less(&Number::of_word(b))
}

/// An operator of two words.
pub(crate) fn two_words(o: Op2, a: &WordVal, b: &WordVal) -> Outcome
    ensures { told result ≡ kept (two_words o a.now b.now) }
{
    match o {
        Op2::Concat => concatenated(a, b),
        Op2::Add => added(a, b),
        Op2::Sub => subtracted(a, b),
        Op2::Mul => multiplied(a, b),
        Op2::Div => divided(a, b),
        Op2::Mod => left_over(a, b),
        Op2::Shl => shifted_up(a, &Number::of_word(b)),
        Op2::Shr => shifted_down(a, &Number::of_word(b)),
        Op2::Lt => Ok(Some(Value::Truth(is_less(a, b)))),
        Op2::Gt => Ok(Some(Value::Truth(is_less(b, a)))),
        Op2::Le => Ok(Some(Value::Truth(!is_less(b, a)))),
        Op2::Ge => Ok(Some(Value::Truth(!is_less(a, b)))),
        Op2::And => word(a.signed(), a.width(), a.bits() & b.bits()),
        Op2::Or => word(a.signed(), a.width(), a.bits() | b.bits()),
        Op2::Xor => word(a.signed(), a.width(), a.bits() ^ b.bits()),
        Op2::Xnor | Op2::Iff => turned(a.signed(), a.width(), a.bits() ^ b.bits()),
        Op2::Implies => implied(a, b),
        _ => Ok(None),
    }
}
