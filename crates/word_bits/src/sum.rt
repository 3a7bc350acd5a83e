#![tactic(auto, using(crate::proofs::Circuits::circuits, crate::proofs::Circuits::belongs))]

ghost use Rattle.std.specs.Prelude.{◌≡◌, ◌+◌, ◌*◌, ◌-◌, ◌%◌, ◌^◌, ◌<◌, length, IfOk};
ghost use Rattle.gates.specs.Nodes.{Grows, AddsConjunctions, Belongs, AllBelong};
ghost use Rattle.gates.specs.Valuation.{value_of, InAll};
ghost use Rattle.word_bits.specs.Number.{digit};
ghost use Rattle.word_bits.specs.Words.{unsigned};

use crate::bit::{carry_of, sum_of};
use crate::vector::{inverted, repeated};
use gates::{Gates, Lit, Lits};
use std::alloc::{AllocError, Global};

/// The sum of two vectors and a carry, with the carry out of it: a ripple of full adders, seven
/// gates a bit.
pub(crate) fn add_with_carry(
    alloc: Global,
    g: &mut Gates,
    a: &Lits,
    b: &Lits,
    carry: Lit,
) -> Result<(Lits, Lit), AllocError>
    requires widths { length a.now ≡ length b.now }
    requires first { AllBelong g.old a.now }
    requires second { AllBelong g.old b.now }
    requires third { Belongs g.old carry }
    ensures sum { IfOk result (λ r. InAll g.new (λ values.
        unsigned values r.0 + 2 ^ length a.now * digit (value_of values r.1) ≡
        unsigned values a.now + unsigned values b.now + digit (value_of values carry))) }
    ensures width { IfOk result (λ r. length r.0 ≡ length a.now) }
    ensures belongs { IfOk result (λ r. AllBelong g.new r.0) }
    ensures carry_belongs { IfOk result (λ r. Belongs g.new r.1) }
    ensures grows { Grows g.old g.new }
    ensures conjunctions { AddsConjunctions g.old g.new }
{
    let mut sum = Lits::new(alloc);
    let mut through = carry;
    for i in 0..a.len() {
        let x = a.get(i);
        let y = b.get(i);
        let bit = sum_of(g, x, y, through)?;
        through = carry_of(g, x, y, through)?;
        sum.push(bit)?;
    }
    Ok((sum, through))
}

/// The difference of two vectors: the first and the negated second with a carry, without a second
/// adder.
///
/// The carry out is set where the first number is not below the second.
pub(crate) fn subtract(
    alloc: Global,
    g: &mut Gates,
    a: &Lits,
    b: &Lits,
) -> Result<(Lits, Lit), AllocError>
    requires bits { 0 < length a.now }
    requires widths { length a.now ≡ length b.now }
    requires first { AllBelong g.old a.now }
    requires second { AllBelong g.old b.now }
    ensures difference { IfOk result (λ r. InAll g.new (λ values.
        unsigned values r.0 + 2 ^ length a.now * digit (value_of values r.1) +
        unsigned values b.now ≡ unsigned values a.now + 2 ^ length a.now)) }
    ensures width { IfOk result (λ r. length r.0 ≡ length a.now) }
    ensures belongs { IfOk result (λ r. AllBelong g.new r.0) }
    ensures carry_belongs { IfOk result (λ r. Belongs g.new r.1) }
    ensures grows { Grows g.old g.new }
    ensures conjunctions { AddsConjunctions g.old g.new }
{
    let other = inverted(alloc, b)?;
    let (difference, carry) = add_with_carry(alloc, g, a, &other, Lit::TRUE)?;
    Ok((difference, carry))
}

/// The sum of two vectors, modulo two to their width.
pub fn add(alloc: Global, g: &mut Gates, a: &Lits, b: &Lits) -> Result<Lits, AllocError>
    requires bits { 0 < length a.now }
    requires widths { length a.now ≡ length b.now }
    requires first { AllBelong g.old a.now }
    requires second { AllBelong g.old b.now }
    ensures sum { IfOk result (λ r. InAll g.new (λ values.
        unsigned values r ≡ (unsigned values a.now + unsigned values b.now) % 2 ^ length a.now)) }
    ensures width { IfOk result (λ r. length r ≡ length a.now) }
    ensures belongs { IfOk result (AllBelong g.new) }
    ensures grows { Grows g.old g.new }
    ensures conjunctions { AddsConjunctions g.old g.new }
{
    let (sum, _carry) = add_with_carry(alloc, g, a, b, Lit::FALSE)?;
    Ok(sum)
}

/// The difference of two vectors, modulo two to their width: one adder, of the first and the
/// inverted second.
pub fn sub(alloc: Global, g: &mut Gates, a: &Lits, b: &Lits) -> Result<Lits, AllocError>
    requires bits { 0 < length a.now }
    requires widths { length a.now ≡ length b.now }
    requires first { AllBelong g.old a.now }
    requires second { AllBelong g.old b.now }
    ensures difference { IfOk result (λ r. InAll g.new (λ values.
        unsigned values r ≡
        (unsigned values a.now + (2 ^ length a.now - unsigned values b.now)) %
        2 ^ length a.now)) }
    ensures width { IfOk result (λ r. length r ≡ length a.now) }
    ensures belongs { IfOk result (AllBelong g.new) }
    ensures grows { Grows g.old g.new }
    ensures conjunctions { AddsConjunctions g.old g.new }
{
    let (difference, _carry) = subtract(alloc, g, a, b)?;
    Ok(difference)
}

/// Two to the width less the number of a vector, modulo two to the width.
pub fn neg(alloc: Global, g: &mut Gates, a: &Lits) -> Result<Lits, AllocError>
    requires bits { 0 < length a.now }
    requires first { AllBelong g.old a.now }
    ensures negation { IfOk result (λ r. InAll g.new (λ values.
        unsigned values r ≡ (2 ^ length a.now - unsigned values a.now) % 2 ^ length a.now)) }
    ensures width { IfOk result (λ r. length r ≡ length a.now) }
    ensures belongs { IfOk result (AllBelong g.new) }
    ensures grows { Grows g.old g.new }
    ensures conjunctions { AddsConjunctions g.old g.new }
{
    let zero = repeated(alloc, Lit::FALSE, a.len())?;
    let (negation, _carry) = subtract(alloc, g, &zero, a)?;
    Ok(negation)
}
