#![tactic(auto, using(crate::proofs::Circuits::circuits, crate::proofs::Circuits::belongs))]

ghost use Rattle.std.specs.Prelude.{◌≡◌, ◌+◌, ◌-◌, ◌^◌, ◌<◌, ◌≤◌, ◌==◌, length, IfOk, nat_lt, nat_le, int_lt, [], ◌∷◌, ◌++◌, take, max};
ghost use Rattle.gates.specs.Literal.{span};
ghost use Rattle.gates.specs.Nodes.{Grows, AddsConjunctions, Belongs, AllBelong};
ghost use Rattle.gates.specs.Valuation.{value_of, InAll};
ghost use Rattle.word_bits.specs.Number.{digit};
ghost use Rattle.word_bits.specs.Words.{unsigned, signed};

use crate::bit::{carry_of, differ};
use crate::vector::{front, inverted};
use gates::{Gates, Lit, Lits, lit_not};
use std::alloc::{AllocError, Global};

/// The carry out of the sum of two vectors and a carry: five gates a bit, which the sum itself has
/// too.
pub(crate) fn carry_out(g: &mut Gates, a: &Lits, b: &Lits, carry: Lit) -> Result<Lit, AllocError>
    requires widths { length a.now ≡ length b.now }
    requires first { AllBelong g.old a.now }
    requires second { AllBelong g.old b.now }
    requires third { Belongs g.old carry }
    ensures meaning { IfOk result (λ l. InAll g.new (λ values.
        value_of values l ≡
        nat_le (2 ^ length a.now)
        (unsigned values a.now + unsigned values b.now + digit (value_of values carry)))) }
    ensures belongs { IfOk result (Belongs g.new) }
    ensures grows { Grows g.old g.new }
    ensures conjunctions { AddsConjunctions g.old g.new }
{
    let mut through = carry;
    for i in 0..a.len() {
        through = carry_of(g, a.get(i), b.get(i), through)?;
    }
    Ok(through)
}

/// Whether the number of `a` is below that of `b`.
pub fn ult(alloc: Global, g: &mut Gates, a: &Lits, b: &Lits) -> Result<Lit, AllocError>
    requires bits { 0 < length a.now }
    requires widths { length a.now ≡ length b.now }
    requires first { AllBelong g.old a.now }
    requires second { AllBelong g.old b.now }
    ensures meaning { IfOk result (λ l. InAll g.new (λ values.
        value_of values l ≡ nat_lt (unsigned values a.now) (unsigned values b.now))) }
    ensures belongs { IfOk result (Belongs g.new) }
    ensures grows { Grows g.old g.new }
    ensures conjunctions { AddsConjunctions g.old g.new }
{
    let other = inverted(alloc, b)?;
    let above = carry_out(g, a, &other, Lit::TRUE)?;
    Ok(lit_not(above))
}

/// Whether the signed number of `a` is below that of `b`: the unsigned comparison, with the two
/// highest bits exchanged.
pub fn slt(alloc: Global, g: &mut Gates, a: &Lits, b: &Lits) -> Result<Lit, AllocError>
    requires bits { 0 < length a.now }
    requires widths { length a.now ≡ length b.now }
    requires first { AllBelong g.old a.now }
    requires second { AllBelong g.old b.now }
    ensures meaning { IfOk result (λ l. InAll g.new (λ values.
        value_of values l ≡ int_lt (signed values a.now) (signed values b.now))) }
    ensures belongs { IfOk result (Belongs g.new) }
    ensures grows { Grows g.old g.new }
    ensures conjunctions { AddsConjunctions g.old g.new }
{
    let top = a.get(a.len() - 1);
    let other = b.get(b.len() - 1);
    let first = with_top(alloc, a, other)?;
    let second = with_top(alloc, b, top)?;
    let below = ult(alloc, g, &first, &second)?;
    Ok(below)
}

/// A vector with another highest bit.
fn with_top(alloc: Global, a: &Lits, top: Lit) -> Result<Lits, AllocError>
    requires bits { 0 < length a.now }
    ensures literals { IfOk result (λ r. r ≡ take (length a.now - 1) a.now ++ top ∷ []) }
    ensures width { IfOk result (λ r. length r ≡ length a.now) }
    ensures span { IfOk result (λ r. span r ≤ max (span a.now) (top.node + 1)) }
{
    let mut bits = front(alloc, a, a.len() - 1)?;
    bits.push(top)?;
    Ok(bits)
}

/// Whether two vectors have equal numbers.
pub fn eq(_alloc: Global, g: &mut Gates, a: &Lits, b: &Lits) -> Result<Lit, AllocError>
    requires bits { 0 < length a.now }
    requires widths { length a.now ≡ length b.now }
    requires first { AllBelong g.old a.now }
    requires second { AllBelong g.old b.now }
    ensures meaning { IfOk result (λ l. InAll g.new (λ values.
        value_of values l ≡ (unsigned values a.now == unsigned values b.now))) }
    ensures belongs { IfOk result (Belongs g.new) }
    ensures grows { Grows g.old g.new }
    ensures conjunctions { AddsConjunctions g.old g.new }
{
    let mut same = Lit::TRUE;
    for i in 0..a.len() {
        let apart = differ(g, a.get(i), b.get(i))?;
        same = g.and(same, lit_not(apart))?;
    }
    Ok(same)
}
