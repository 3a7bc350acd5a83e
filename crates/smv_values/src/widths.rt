//! Operators that change the width of a word.
ghost use Rattle.std.specs.Prelude.{◌≡◌, ◌<◌, ◌≤◌, ◌+◌, ◌^◌, true, false, [], ◌∷◌, None, IfSome};
ghost use Rattle.smv_tree.specs.declared.value.Value.TheVariants.{Word as Bits};
ghost use Rattle.smv_meaning.specs.Operators.{resized, selected, widened, word_of};
ghost use Rattle.smv_values.specs.Answers.{kept, told};

use crate::bits::{low, shifted_right};
use crate::made::{word, wrapped};
use crate::number::Number;
use crate::{Outcome, TooLarge};
use smv_tree::{Value, WordVal};

/// The width, if words may have it.
fn width(n: u64) -> Option<u8>
    ensures there { IfSome result (λ m. (m ≡ n) × (m ≤ 128)) }
    ensures none { result ≡ None → 128 < n }
{
    if n <= 128 { Some(n as u8) } else { None }
}

fn selected_bits(high: u32, low_end: u32, w: &WordVal) -> Outcome
    ensures { told result ≡ kept (selected high low_end (Bits w.now)) }
{
    match width((high as u64 + 1).saturating_sub(low_end as u64)) {
        Some(n) => word(false, n, low(shifted_right(w.bits(), low_end), n)),
        None => Err(TooLarge),
    }
}

/// The bits of a word from the high end down to the low one.
pub fn selected(high: u32, low: u32, v: &Value) -> Outcome
    ensures { told result ≡ kept (selected high low v.now) }
{
    match v {
        Value::Word(w) => selected_bits(high, low, w),
        _ => Ok(None),
    }
}

/// These bits below a bit that is set.
#[tactic(auto, using(crate::proofs::Wraps::high_fits))]
fn below_high(bits: u128, n: u8) -> u128
    requires room { n ≤ 127 }
    requires below { bits < 2 ^ n }
    ensures { result ≡ 2 ^ n + bits }
{
    (1 << n) + bits
}

/// Fewer bits of a signed word, whose sign stays.
fn cut_signed(n: u8, w: &WordVal) -> Outcome
    requires signed { w.now.signed ≡ true }
    requires fewer { n < w.now.width }
    requires least { n ≤ 128 }
    ensures { told result ≡ kept (Bits (resized n w.now) ∷ []) }
{
    let others = n.saturating_sub(1);
    let bits = low(w.bits(), others);
    if Number::of_word(w).is_negative() {
        word(true, n, below_high(bits, others))
    } else {
        word(true, n, bits)
    }
}

fn resized_word(n: u8, w: &WordVal) -> Outcome
    requires { n ≤ 128 }
    ensures { told result ≡ kept (Bits (resized n w.now) ∷ []) }
{
    if w.width() <= n {
        wrapped(w.signed(), n, Number::of_word(w).residue())
    } else if w.signed() {
        cut_signed(n, w)
    } else {
        word(false, n, low(w.bits(), n))
    }
}

fn extended_word(n: u32, w: &WordVal) -> Outcome
    ensures { told result ≡ kept (widened false n (Bits w.now)) }
{
    match width(w.width() as u64 + n as u64) {
        Some(total) => wrapped(w.signed(), total, Number::of_word(w).residue()),
        None => Err(TooLarge),
    }
}

/// A word of n bits where `resize` is true, else one of n bits more.
pub fn widened(resize: bool, n: u32, v: &Value) -> Outcome
    ensures { told result ≡ kept (widened resize n v.now) }
{
    match v {
        Value::Word(w) if resize => match width(n as u64) {
            Some(n) => resized_word(n, w),
            None => Err(TooLarge),
        },
        Value::Word(w) => extended_word(n, w),
        _ => Ok(None),
    }
}

/// The word of this sign and width whose number is n modulo two to the width.
pub fn word_of(signed: bool, bits: u32, n: i64) -> Outcome
    ensures { told result ≡ kept (Bits (word_of signed bits n) ∷ []) }
{
    match width(bits as u64) {
        Some(bits) => wrapped(signed, bits, Number::of_int(n).residue()),
        None => Err(TooLarge),
    }
}
