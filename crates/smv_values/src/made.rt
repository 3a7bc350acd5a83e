//! Words that are made of bits and of numbers.
ghost use Rattle.std.specs.Prelude.{◌≡◌, ◌-◌, ◌^◌, [], ◌∷◌, ℤ};
ghost use Rattle.smv_tree.specs.declared.value.Value.TheVariants.{Word as Bits};
ghost use Rattle.smv_meaning.specs.Operators.{wrap, word_of};
ghost use Rattle.smv_values.specs.Answers.{kept, told};

use crate::bits::{low, ones};
use crate::{Outcome, TooLarge};
use smv_tree::{Value, WordVal};

/// The word of these bits.
pub(crate) fn word(signed: bool, width: u8, bits: u128) -> Outcome
    ensures { told result ≡
        kept (Bits (record { signed = signed; width = width; bits = bits }) ∷ []) }
{
    if width > 128 {
        return Err(TooLarge);
    }
    match WordVal::from_bits(signed, width, bits) {
        Some(w) => Ok(Some(Value::Word(w))),
        None => Err(TooLarge),
    }
}

/// The word in which each of these bits is turned over.
pub(crate) fn turned(signed: bool, width: u8, bits: u128) -> Outcome
    ensures { told result ≡
        kept (Bits (record { signed = signed; width = width; bits = 2 ^ width - 1 - bits }) ∷ []) }
{
    if width > 128 {
        return Err(TooLarge);
    }
    word(signed, width, ones(width).saturating_sub(bits))
}

/// The word of a number of which this is left modulo two to the 128.
#[tactic(auto, using(crate::proofs::Wraps::cut_word))]
pub(crate) fn wrapped(signed: bool, width: u8, residue: u128) -> Outcome
    ensures { (z : ℤ) → residue ≡ wrap 128 z →
        told result ≡ kept (Bits (word_of signed width z) ∷ []) }
{
    if width > 128 {
        return Err(TooLarge);
    }
    let bits = low(residue, width);
    Ok(Some(Value::Word(WordVal::new(signed, width, bits))))
}
