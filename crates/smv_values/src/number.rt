ghost use Rattle.std.specs.Prelude.{◌≡◌, ◌≢◌, ℤ, ◌≤◌, ◌<◌, ◌^◌, ℕ, pos, neg_ℤ, ◌+ℤ◌, ◌-ℤ◌, ◌*ℤ◌, int_lt, int_div, int_rem, ◌∷◌, [], None, IfSome};
ghost use Rattle.std.specs.Int.{is_negative, int_div_euclid};
ghost use Rattle.std.specs.Ordering.{int_eq};
ghost use Rattle.smv_tree.specs.Word.{word_number};
ghost use Rattle.smv_meaning.specs.Operators.{wrap};
ghost use Rattle.smv_tree.specs.declared.value.Value.TheVariants.{Int as Integer};
ghost use Rattle.smv_values.specs.Answers.{kept, told};
ghost use Rattle.smv_values.specs.Numbers.{signed};

use crate::bits::shifted_right;
use crate::{Outcome, TooLarge};
use smv_tree::{Value, WordVal, word_value};
use std::marker::Model;

/// An integer that is less than two to the 128 from zero.
#[derive(Debug, Drop)]
pub(crate) struct Number {
    negative: bool,
    magnitude: u128,
}

impl Model for Number {
    ghost use Rattle.std.specs.Prelude.{◌≡◌, ◌<◌, ◌^◌, true, ℤ};
    ghost use Rattle.smv_values.specs.Numbers.{signed};

    ghost Value = { ℤ };

    ghost view = { λ n. signed n.negative n.magnitude };

    ghost invariant = { λ n. (n.negative ≡ true → 0 < n.magnitude) × (n.magnitude < 2 ^ 128) };
}

impl Number {
    /// So far from zero, and on its lower side where `negative` is true.
    fn new(negative: bool, magnitude: u128) -> Number
        ensures { result ≡ signed negative magnitude }
    {
        Number {
            negative: negative && magnitude > 0,
            magnitude,
        }
    }

    /// The number that a word stands for.
    pub(crate) fn of_word(w: &WordVal) -> Number
        ensures { result ≡ word_number w.now }
    {
        let (negative, magnitude) = word_value(w);
        Number::new(negative, magnitude)
    }

    pub(crate) fn of_int(n: i64) -> Number
        ensures { result ≡ n }
    {
        Number::new(n < 0, n.unsigned_abs() as u128)
    }

    pub(crate) fn is_zero(&self) -> bool
        ensures { result ≡ int_eq self.now (pos 0) }
    {
        self.magnitude == 0
    }

    pub(crate) fn is_less(&self, other: &Number) -> bool
        ensures { result ≡ int_lt self.now other.now }
    {
        match (self.negative, other.negative) {
            (true, false) => true,
            (false, true) => false,
            (false, false) => self.magnitude < other.magnitude,
            (true, true) => other.magnitude < self.magnitude,
        }
    }

    /// What is left of the number modulo two to the 128.
    pub(crate) fn residue(&self) -> u128
        ensures { result ≡ wrap 128 self.now }
    {
        if self.negative {
            u128::MAX - (self.magnitude - 1)
        } else {
            self.magnitude
        }
    }

    /// The quotient, which truncates towards zero.
    pub(crate) fn quotient(&self, divisor: &Number) -> Number
        requires { divisor.now ≢ pos 0 }
        ensures { result ≡ int_div self.now divisor.now }
    {
        Number::new(
            self.negative != divisor.negative,
            self.magnitude / divisor.magnitude,
        )
    }

    /// The remainder, which has the sign of this number.
    pub(crate) fn remainder(&self, divisor: &Number) -> Number
        requires { divisor.now ≢ pos 0 }
        ensures { result ≡ int_rem self.now divisor.now }
    {
        Number::new(self.negative, self.magnitude % divisor.magnitude)
    }

    /// The number as an integer, if that has 64 bits.
    pub(crate) fn to_int(&self) -> Outcome
        ensures { told result ≡ kept (Integer self.now ∷ []) }
    {
        if !self.negative && self.magnitude <= i64::MAX as u128 {
            Ok(Some(Value::Int(self.magnitude as i64)))
        } else if self.negative && self.magnitude <= 1 << 63 {
            Ok(Some(Value::Int(-((self.magnitude - 1) as i64) - 1)))
        } else {
            Err(TooLarge)
        }
    }

    /// Whether the number is below zero.
    pub(crate) fn is_negative(&self) -> bool
        ensures { result ≡ is_negative self.now }
    {
        self.negative
    }

    /// The number with the other sign.
    pub(crate) fn negated(&self) -> Number
        ensures { result ≡ neg_ℤ self.now }
    {
        Number::new(!self.negative, self.magnitude)
    }

    /// The quotient by two to the n, which goes down.
    pub(crate) fn shifted_down(&self, n: u8) -> Number
        ensures { result ≡ int_div_euclid self.now (pos (2 ^ n)) }
    {
        if self.negative {
            Number::new(true, shifted_right(self.magnitude - 1, n as u32) + 1)
        } else {
            Number::new(false, shifted_right(self.magnitude, n as u32))
        }
    }

    /// The number as that of bits to shift by, if it is one and at most so great.
    pub(crate) fn amount(&self, most: u8) -> Option<u8>
        ensures there { IfSome result (λ n. (self.now ≡ pos n) × (n ≤ most)) }
        ensures none { result ≡ None → (n : ℕ) → self.now ≡ pos n → most < n }
    {
        if !self.negative && self.magnitude <= most as u128 {
            Some(self.magnitude as u8)
        } else {
            None
        }
    }
}

/// What is left of the sum of two numbers modulo two to the 128.
#[tactic(auto, using(crate::proofs::Wraps::wrap_sum))]
pub(crate) fn sum(a: &Number, b: &Number) -> u128
    ensures { result ≡ wrap 128 (a.now +ℤ b.now) }
{
    a.residue().wrapping_add(b.residue())
}

/// The same of their difference.
#[tactic(auto, using(crate::proofs::Wraps::wrap_difference))]
pub(crate) fn difference(a: &Number, b: &Number) -> u128
    ensures { result ≡ wrap 128 (a.now -ℤ b.now) }
{
    a.residue().wrapping_sub(b.residue())
}

/// The same of their product.
#[tactic(auto, using(crate::proofs::Wraps::wrap_product))]
pub(crate) fn product(a: &Number, b: &Number) -> u128
    ensures { result ≡ wrap 128 (a.now *ℤ b.now) }
{
    a.residue().wrapping_mul(b.residue())
}
