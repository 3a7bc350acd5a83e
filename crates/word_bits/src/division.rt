#![tactic(auto, using(crate::proofs::Circuits::circuits, crate::proofs::Circuits::belongs))]

ghost use Rattle.std.specs.Prelude.{◌≡◌, ◌+◌, ◌*◌, ◌/◌, ◌%◌, ◌^◌, ◌<◌, length, IfOk, ◌-◌, ◌==◌, int_div, int_rem, if◌then◌else◌};
ghost use Rattle.gates.specs.Nodes.{Grows, AddsConjunctions, Belongs, AllBelong};
ghost use Rattle.gates.specs.Valuation.{value_of, InAll};
ghost use Rattle.word_bits.specs.Number.{digit, wrapped};
ghost use Rattle.word_bits.specs.Words.{unsigned, signed};

use crate::bit::differ;
use crate::choice::mux;
use crate::sum::{neg, subtract};
use crate::vector::{concat, front, repeated, tail};
use gates::{Gates, Lit, Lits, lit_not};
use std::alloc::{AllocError, Global};

/// The quotient and the remainder of two vectors where the divisor is not 0: a restoring division,
/// from the highest bit down.
pub fn udiv_rem(
    alloc: Global,
    g: &mut Gates,
    a: &Lits,
    b: &Lits,
) -> Result<(Lits, Lits), AllocError>
    requires bits { 0 < length a.now }
    requires widths { length a.now ≡ length b.now }
    requires first { AllBelong g.old a.now }
    requires second { AllBelong g.old b.now }
    ensures quotient { IfOk result (λ r. InAll g.new (λ values.
        0 < unsigned values b.now →
        unsigned values r.0 ≡ unsigned values a.now / unsigned values b.now)) }
    ensures remainder { IfOk result (λ r. InAll g.new (λ values.
        0 < unsigned values b.now →
        unsigned values r.1 ≡ unsigned values a.now % unsigned values b.now)) }
    ensures quotient_width { IfOk result (λ r. length r.0 ≡ length a.now) }
    ensures remainder_width { IfOk result (λ r. length r.1 ≡ length a.now) }
    ensures quotient_belongs { IfOk result (λ r. AllBelong g.new r.0) }
    ensures remainder_belongs { IfOk result (λ r. AllBelong g.new r.1) }
    ensures grows { Grows g.old g.new }
    ensures conjunctions { AddsConjunctions g.old g.new }
{
    let mut quotient = Lits::new(alloc);
    let mut remainder = Lits::new(alloc);
    for i in 0..a.len() {
        let bit = a.get(a.len() - 1 - i);
        let (digit, rest) = divide_bit(alloc, g, &remainder, bit, b)?;
        let single = repeated(alloc, digit, 1)?;
        quotient = concat(alloc, &quotient, &single)?;
        remainder = rest;
    }
    Ok((quotient, remainder))
}

/// One digit of a quotient, and the remainder after it: the remainder before it with the next bit
/// of the dividend below, less the divisor where that is not above it.
///
/// The remainder has as many bits as the dividend had so far. So only the lowest bits of the
/// divisor are subtracted, and the digit is 0 where one of its others is set: half the gates of a
/// subtraction over the whole width.
fn divide_bit(
    alloc: Global,
    g: &mut Gates,
    remainder: &Lits,
    bit: Lit,
    divisor: &Lits,
) -> Result<(Lit, Lits), AllocError>
    requires within { length remainder.now < length divisor.now }
    requires first { AllBelong g.old remainder.now }
    requires second { Belongs g.old bit }
    requires third { AllBelong g.old divisor.now }
    ensures division { IfOk result (λ r. InAll g.new (λ values.
        unsigned values remainder.now < unsigned values divisor.now →
        (unsigned values r.1 + digit (value_of values r.0) * unsigned values divisor.now ≡
        digit (value_of values bit) + 2 * unsigned values remainder.now) ×
        (unsigned values r.1 < unsigned values divisor.now))) }
    ensures width { IfOk result (λ r. length r.1 ≡ length remainder.now + 1) }
    ensures digit_belongs { IfOk result (λ r. Belongs g.new r.0) }
    ensures belongs { IfOk result (λ r. AllBelong g.new r.1) }
    ensures grows { Grows g.old g.new }
    ensures conjunctions { AddsConjunctions g.old g.new }
{
    let lowest = repeated(alloc, bit, 1)?;
    let shifted = concat(alloc, remainder, &lowest)?;
    let low = front(alloc, divisor, shifted.len())?;
    let high = tail(alloc, divisor, shifted.len())?;
    let (difference, carry) = subtract(alloc, g, &shifted, &low)?;
    let small = is_zero(g, &high)?;
    let digit = g.and(small, carry)?;
    let rest = mux(alloc, g, digit, &difference, &shifted)?;
    Ok((digit, rest))
}

/// Whether no bit of a vector is set, asked from the highest down: vectors that end alike share
/// gates.
fn is_zero(g: &mut Gates, a: &Lits) -> Result<Lit, AllocError>
    requires constant { 0 < length g.old }
    requires first { AllBelong g.old a.now }
    ensures meaning { IfOk result (λ l. InAll g.new (λ values.
        value_of values l ≡ (unsigned values a.now == 0))) }
    ensures belongs { IfOk result (Belongs g.new) }
    ensures grows { Grows g.old g.new }
    ensures conjunctions { AddsConjunctions g.old g.new }
{
    let mut none = Lit::TRUE;
    for i in 0..a.len() {
        let bit = a.get(a.len() - 1 - i);
        none = g.and(none, lit_not(bit))?;
    }
    Ok(none)
}

/// The quotient and the remainder of two signed vectors where the divisor is not 0: the quotient is
/// rounded toward zero, and both are modulo two to the width.
///
/// It is the unsigned division of the magnitudes, with the signs put back.
pub fn sdiv_rem(
    alloc: Global,
    g: &mut Gates,
    a: &Lits,
    b: &Lits,
) -> Result<(Lits, Lits), AllocError>
    requires bits { 0 < length a.now }
    requires widths { length a.now ≡ length b.now }
    requires first { AllBelong g.old a.now }
    requires second { AllBelong g.old b.now }
    ensures quotient { IfOk result (λ r. InAll g.new (λ values.
        0 < unsigned values b.now →
        unsigned values r.0 ≡
        wrapped (length a.now) (int_div (signed values a.now) (signed values b.now)))) }
    ensures remainder { IfOk result (λ r. InAll g.new (λ values.
        0 < unsigned values b.now →
        unsigned values r.1 ≡
        wrapped (length a.now) (int_rem (signed values a.now) (signed values b.now)))) }
    ensures quotient_width { IfOk result (λ r. length r.0 ≡ length a.now) }
    ensures remainder_width { IfOk result (λ r. length r.1 ≡ length a.now) }
    ensures quotient_belongs { IfOk result (λ r. AllBelong g.new r.0) }
    ensures remainder_belongs { IfOk result (λ r. AllBelong g.new r.1) }
    ensures grows { Grows g.old g.new }
    ensures conjunctions { AddsConjunctions g.old g.new }
{
    let sign = a.get(a.len() - 1);
    let other = b.get(b.len() - 1);
    let dividend = negate_where(alloc, g, sign, a)?;
    let divisor = negate_where(alloc, g, other, b)?;
    let (quotient, remainder) = udiv_rem(alloc, g, &dividend, &divisor)?;
    let apart = differ(g, sign, other)?;
    let signed_quotient = negate_where(alloc, g, apart, &quotient)?;
    let signed_remainder = negate_where(alloc, g, sign, &remainder)?;
    Ok((signed_quotient, signed_remainder))
}

/// The negation of a vector where `c` is true, else the vector.
fn negate_where(alloc: Global, g: &mut Gates, c: Lit, a: &Lits) -> Result<Lits, AllocError>
    requires bits { 0 < length a.now }
    requires test { Belongs g.old c }
    requires first { AllBelong g.old a.now }
    ensures number { IfOk result (λ r. InAll g.new (λ values.
        unsigned values r ≡
        (if value_of values c
        then (2 ^ length a.now - unsigned values a.now) % 2 ^ length a.now
        else unsigned values a.now))) }
    ensures width { IfOk result (λ r. length r ≡ length a.now) }
    ensures belongs { IfOk result (AllBelong g.new) }
    ensures grows { Grows g.old g.new }
    ensures conjunctions { AddsConjunctions g.old g.new }
{
    let negation = neg(alloc, g, a)?;
    let chosen = mux(alloc, g, c, &negation, a)?;
    Ok(chosen)
}
