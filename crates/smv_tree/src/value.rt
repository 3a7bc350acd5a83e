ghost use Rattle.std.specs.Prelude.{◌≡◌, ◌↔◌, ◌⊎◌, ◌<◌, ◌*◌, ◌^◌, None, IfSome, IsSome, IsTrue};
ghost use Rattle.std.specs.Int.{is_negative};
ghost use Rattle.std.specs.Prelude.{unsigned_abs};
ghost use Rattle.smv_tree.specs.Word.{word_number, IsWordOf};

use crate::Name;
use std::marker::Model;

/// Whether the bits are below two to the width.
#[tactic(auto, using(crate::proofs::Words::fits_shifted, crate::proofs::Words::shifted_fits))]
fn fits(width: u8, bits: u128) -> bool
    ensures { IsTrue result ↔ (bits < 2 ^ width) }
{
    if width < 128 {
        bits >> width == 0
    } else {
        true
    }
}

/// A word: its bits as a natural number, at a width of up to 255 bits, read as signed or not.
#[derive(Clone, Copy, Debug, PartialEq, Eq)]
pub struct WordVal {
    signed: bool,
    width: u8,
    bits: u128,
}

impl Model for WordVal {
    ghost use Rattle.std.specs.Prelude.{◌<◌, ◌^◌};
    ghost use Rattle.smv_tree.specs.Word.{Word};

    ghost Value = { Word };

    ghost view = { λ w. record { signed = w.signed; width = w.width; bits = w.bits } };

    ghost invariant = { λ w. w.bits < 2 ^ w.width };

    ghost inverse = { λ w. record { signed = w.signed; width = w.width; bits = w.bits } };
}

impl WordVal {
    /// The word of these bits, which stay below two to the width.
    pub fn new(signed: bool, width: u8, bits: u128) -> WordVal
        requires { bits < 2 ^ width }
        ensures { result ≡ record { signed = signed; width = width; bits = bits } }
    {
        WordVal {
            signed,
            width,
            bits,
        }
    }

    /// The word of these bits, if they are below two to the width.
    pub fn from_bits(signed: bool, width: u8, bits: u128) -> Option<WordVal>
        ensures word { IfSome result (λ w. w ≡ record { signed = signed; width = width; bits = bits }) }
        ensures fits { IsSome result ↔ (bits < 2 ^ width) }
    {
        if fits(width, bits) {
            Some(WordVal::new(signed, width, bits))
        } else {
            None
        }
    }

    /// Whether the word has this sign and width.
    pub fn is_of(self, signed: bool, width: u8) -> bool
        ensures { IsTrue result ↔ IsWordOf signed width self }
    {
        self.signed == signed && self.width == width
    }

    /// Whether the word is read as signed.
    pub fn signed(self) -> bool
        ensures { result ≡ self.signed }
    {
        self.signed
    }

    /// The number of bits.
    pub fn width(self) -> u8
        ensures { result ≡ self.width }
    {
        self.width
    }

    /// The bits as a natural number, whether the word is signed or not.
    pub fn bits(self) -> u128
        ensures value { result ≡ self.bits }
        ensures below { self.bits < 2 ^ self.width }
    {
        self.bits
    }
}

/// What the highest bit of a word of this width counts, if there is one and it fits.
fn highest_bit(width: u8) -> Option<u128>
    ensures fits { IfSome result (λ high. 2 * high ≡ 2 ^ width) }
    ensures lacks { result ≡ None → (width ≡ 0) ⊎ (128 < width) }
{
    if width > 0 && width <= 128 {
        Some(1 << (width - 1))
    } else {
        None
    }
}

/// The number that these bits stand for: whether it is below zero, and its magnitude.
#[tactic(auto, using(crate::proofs::Words::wide_is_natural))]
fn number(signed: bool, width: u8, bits: u128) -> (bool, u128)
    requires { bits < 2 ^ width }
    ensures sign { result.0 ≡ is_negative (word_number (record { signed = signed; width = width; bits = bits })) }
    ensures magnitude { result.1 ≡ unsigned_abs (word_number (record { signed = signed; width = width; bits = bits })) }
{
    match highest_bit(width) {
        Some(high) if signed && bits >= high => (true, high - (bits - high)),
        Some(_) => (false, bits),
        None => (false, bits),
    }
}

/// The number that a word stands for: whether it is below zero, and its magnitude.
pub fn word_value(w: &WordVal) -> (bool, u128)
    ensures sign { result.0 ≡ is_negative (word_number w.now) }
    ensures magnitude { result.1 ≡ unsigned_abs (word_number w.now) }
{
    number(w.signed, w.width, w.bits)
}

/// A value of a variable or of an expression.
#[derive(Debug, Drop)]
pub enum Value {
    Truth(bool),
    Int(i64),
    Sym(Name),
    Word(WordVal),
}

/// Values in order: those of an enumeration, or of an expression.
#[derive(Debug, Drop)]
pub struct Values {
    values: Vec<Value>,
}

impl Model for Values {
    ghost use Rattle.std.specs.Prelude.{List};
    ghost use Rattle.smv_tree.specs.declared.value.Value.{Value as SmvValue};

    ghost Value = { List SmvValue };

    ghost view = { λ v. v.values.items };
}

impl Values {
    /// The values of a vector, which is taken over.
    pub fn from_vec(values: Vec<Value>) -> Values
        ensures { result ≡ values.items }
    {
        Values { values }
    }

    /// The values as a slice.
    pub fn as_slice(&self) -> &[Value]
        ensures { result.now ≡ self.now }
    {
        self.values.as_slice()
    }
}

/// The type of a variable. A range has its least and its greatest value; the `bool` of a word says
/// whether it is signed, the number is its width in bits.
#[derive(Debug, Drop)]
pub enum Ty {
    Bool,
    Range(i64, i64),
    Enum(Values),
    Word(bool, u8),
}
