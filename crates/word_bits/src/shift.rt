#![tactic(auto, using(crate::proofs::Circuits::circuits, crate::proofs::Circuits::belongs))]

ghost use Rattle.std.specs.Prelude.{◌≡◌, ◌*◌, ◌%◌, ◌^◌, ◌<◌, ◌≤◌, length, IfOk, ◌/◌, true, false, pos};
ghost use Rattle.std.specs.Int.{int_div_euclid};
ghost use Rattle.gates.specs.Nodes.{Grows, AddsConjunctions, Belongs, AllBelong};
ghost use Rattle.gates.specs.Valuation.{value_of, values_of, InAll};
ghost use Rattle.word_bits.specs.Number.{digit, number_against};
ghost use Rattle.word_bits.specs.Words.{unsigned, signed};

use crate::choice::mux;
use crate::vector::{concat, filling, front, repeated, tail};
use gates::{Gates, Lit, Lits};
use std::alloc::{AllocError, Global};

/// A vector times two to the number of another, modulo two to its width, where that number is at
/// most the width.
///
/// A barrel shifter: one stage for each bit of the amount that such a number can have.
pub fn shl(alloc: Global, g: &mut Gates, a: &Lits, by: &Lits) -> Result<Lits, AllocError>
    requires bits { 0 < length a.now }
    requires first { AllBelong g.old a.now }
    requires second { AllBelong g.old by.now }
    ensures shifted { IfOk result (λ r. InAll g.new (λ values.
        unsigned values by.now ≤ length a.now →
        unsigned values r ≡
        (unsigned values a.now * 2 ^ unsigned values by.now) % 2 ^ length a.now)) }
    ensures width { IfOk result (λ r. length r ≡ length a.now) }
    ensures belongs { IfOk result (AllBelong g.new) }
    ensures grows { Grows g.old g.new }
    ensures conjunctions { AddsConjunctions g.old g.new }
{
    let mut shifted = a.copy(alloc)?;
    let mut distance = 1;
    let mut i = 0;
    while i < by.len() && distance <= a.len() {
        shifted = shift_up(alloc, g, &shifted, by.get(i), distance)?;
        distance *= 2;
        i += 1;
    }
    Ok(shifted)
}

/// One stage: the vector, moved up by the distance where `bit` is true.
fn shift_up(
    alloc: Global,
    g: &mut Gates,
    a: &Lits,
    bit: Lit,
    distance: usize,
) -> Result<Lits, AllocError>
    requires bits { 0 < length a.now }
    requires within { distance ≤ length a.now }
    requires first { AllBelong g.old a.now }
    requires second { Belongs g.old bit }
    ensures shifted { IfOk result (λ r. InAll g.new (λ values.
        unsigned values r ≡
        (unsigned values a.now * 2 ^ (distance * digit (value_of values bit))) %
        2 ^ length a.now)) }
    ensures width { IfOk result (λ r. length r ≡ length a.now) }
    ensures belongs { IfOk result (AllBelong g.new) }
    ensures grows { Grows g.old g.new }
    ensures conjunctions { AddsConjunctions g.old g.new }
{
    let zeros = repeated(alloc, Lit::FALSE, distance)?;
    let kept = front(alloc, a, a.len() - distance)?;
    let moved = concat(alloc, &kept, &zeros)?;
    let shifted = mux(alloc, g, bit, &moved, a)?;
    Ok(shifted)
}

/// A vector without as many of its lowest bits as the number of another says, where that number is
/// at most the width. It is filled at the top with its highest bit where `copy_sign`, else with
/// false.
///
/// A barrel shifter, as `shl`.
pub fn shr(
    alloc: Global,
    g: &mut Gates,
    a: &Lits,
    by: &Lits,
    copy_sign: bool,
) -> Result<Lits, AllocError>
    requires bits { 0 < length a.now }
    requires first { AllBelong g.old a.now }
    requires second { AllBelong g.old by.now }
    ensures number { IfOk result (λ r. InAll g.new (λ values.
        unsigned values by.now ≤ length a.now → copy_sign ≡ false →
        unsigned values r ≡ unsigned values a.now / 2 ^ unsigned values by.now)) }
    ensures signed { IfOk result (λ r. InAll g.new (λ values.
        unsigned values by.now ≤ length a.now → copy_sign ≡ true →
        signed values r ≡
        int_div_euclid (signed values a.now) (pos (2 ^ unsigned values by.now)))) }
    ensures width { IfOk result (λ r. length r ≡ length a.now) }
    ensures belongs { IfOk result (AllBelong g.new) }
    ensures grows { Grows g.old g.new }
    ensures conjunctions { AddsConjunctions g.old g.new }
{
    let fill = filling(a, copy_sign);
    let mut shifted = a.copy(alloc)?;
    let mut distance = 1;
    let mut i = 0;
    while i < by.len() && distance <= a.len() {
        shifted = shift_down(alloc, g, &shifted, by.get(i), distance, fill)?;
        distance *= 2;
        i += 1;
    }
    Ok(shifted)
}

/// One stage: the vector, moved down by the distance where `bit` is true, and filled at the top.
fn shift_down(
    alloc: Global,
    g: &mut Gates,
    a: &Lits,
    bit: Lit,
    distance: usize,
    fill: Lit,
) -> Result<Lits, AllocError>
    requires within { distance ≤ length a.now }
    requires first { AllBelong g.old a.now }
    requires second { Belongs g.old bit }
    requires third { Belongs g.old fill }
    ensures shifted { IfOk result (λ r. InAll g.new (λ values.
        number_against (value_of values fill) (values_of values r) ≡
        number_against (value_of values fill) (values_of values a.now) /
        2 ^ (distance * digit (value_of values bit)))) }
    ensures width { IfOk result (λ r. length r ≡ length a.now) }
    ensures belongs { IfOk result (AllBelong g.new) }
    ensures grows { Grows g.old g.new }
    ensures conjunctions { AddsConjunctions g.old g.new }
{
    let filled = repeated(alloc, fill, distance)?;
    let kept = tail(alloc, a, distance)?;
    let moved = concat(alloc, &filled, &kept)?;
    let shifted = mux(alloc, g, bit, &moved, a)?;
    Ok(shifted)
}
