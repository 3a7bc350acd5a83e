ghost use Rattle.std.specs.Prelude.{◌≡◌, ◌||◌, IfOk, if◌then◌else◌};
ghost use Rattle.gates.specs.Nodes.{Grows, AddsConjunctions, Belongs};
ghost use Rattle.gates.specs.Valuation.{value_of, InAll};
ghost use Rattle.word_bits.specs.Number.{xor, carry};

use gates::{Gates, Lit, lit_not};
use std::alloc::AllocError;

/// The disjunction of two literals: one gate.
#[tactic(auto, using(crate::proofs::Circuits::circuits))]
pub(crate) fn or(g: &mut Gates, a: Lit, b: Lit) -> Result<Lit, AllocError>
    requires first { Belongs g.old a }
    requires second { Belongs g.old b }
    ensures meaning { IfOk result (λ l. InAll g.new (λ values.
        value_of values l ≡ (value_of values a || value_of values b))) }
    ensures belongs { IfOk result (Belongs g.new) }
    ensures grows { Grows g.old g.new }
    ensures conjunctions { AddsConjunctions g.old g.new }
{
    let neither = g.and(lit_not(a), lit_not(b))?;
    Ok(lit_not(neither))
}

/// Whether two literals differ: three gates, of which the first is their conjunction.
#[tactic(auto, using(crate::proofs::Circuits::circuits))]
pub(crate) fn differ(g: &mut Gates, a: Lit, b: Lit) -> Result<Lit, AllocError>
    requires first { Belongs g.old a }
    requires second { Belongs g.old b }
    ensures meaning { IfOk result (λ l. InAll g.new (λ values.
        value_of values l ≡ xor (value_of values a) (value_of values b))) }
    ensures belongs { IfOk result (Belongs g.new) }
    ensures grows { Grows g.old g.new }
    ensures conjunctions { AddsConjunctions g.old g.new }
{
    let both = g.and(a, b)?;
    let neither = g.and(lit_not(a), lit_not(b))?;
    let differ = g.and(lit_not(both), lit_not(neither))?;
    Ok(differ)
}

/// The carry of the sum of three bits: two gates beside those of `differ`, of which one is that of
/// the sum.
#[tactic(auto, using(crate::proofs::Circuits::circuits))]
pub(crate) fn carry_of(g: &mut Gates, a: Lit, b: Lit, c: Lit) -> Result<Lit, AllocError>
    requires first { Belongs g.old a }
    requires second { Belongs g.old b }
    requires third { Belongs g.old c }
    ensures meaning { IfOk result (λ l. InAll g.new (λ values.
        value_of values l ≡ carry (value_of values a) (value_of values b) (value_of values c))) }
    ensures belongs { IfOk result (Belongs g.new) }
    ensures grows { Grows g.old g.new }
    ensures conjunctions { AddsConjunctions g.old g.new }
{
    let apart = differ(g, a, b)?;
    let both = g.and(a, b)?;
    let through = g.and(apart, c)?;
    let carry = or(g, both, through)?;
    Ok(carry)
}

/// The lowest bit of the sum of three bits: three gates beside those of `differ`.
#[tactic(auto, using(crate::proofs::Circuits::circuits))]
pub(crate) fn sum_of(g: &mut Gates, a: Lit, b: Lit, c: Lit) -> Result<Lit, AllocError>
    requires first { Belongs g.old a }
    requires second { Belongs g.old b }
    requires third { Belongs g.old c }
    ensures meaning { IfOk result (λ l. InAll g.new (λ values.
        value_of values l ≡
        xor (xor (value_of values a) (value_of values b)) (value_of values c))) }
    ensures belongs { IfOk result (Belongs g.new) }
    ensures grows { Grows g.old g.new }
    ensures conjunctions { AddsConjunctions g.old g.new }
{
    let apart = differ(g, a, b)?;
    let sum = differ(g, apart, c)?;
    Ok(sum)
}

/// The first of two literals where `c` is true, else the second: three gates.
#[tactic(auto, using(crate::proofs::Circuits::circuits))]
pub(crate) fn choose(g: &mut Gates, c: Lit, a: Lit, b: Lit) -> Result<Lit, AllocError>
    requires test { Belongs g.old c }
    requires first { Belongs g.old a }
    requires second { Belongs g.old b }
    ensures meaning { IfOk result (λ l. InAll g.new (λ values.
        value_of values l ≡
        (if value_of values c then value_of values a else value_of values b))) }
    ensures belongs { IfOk result (Belongs g.new) }
    ensures grows { Grows g.old g.new }
    ensures conjunctions { AddsConjunctions g.old g.new }
{
    let first = g.and(c, a)?;
    let second = g.and(lit_not(c), b)?;
    let chosen = or(g, first, second)?;
    Ok(chosen)
}
