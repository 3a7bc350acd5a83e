#![tactic(auto, using(crate::proofs::Circuits::circuits, crate::proofs::Circuits::belongs))]

ghost use Rattle.std.specs.Prelude.{◌≡◌, ◌+◌, ◌*◌, ◌%◌, ◌^◌, ◌<◌, length, IfOk};
ghost use Rattle.gates.specs.Nodes.{Grows, AddsConjunctions, Belongs, AllBelong};
ghost use Rattle.gates.specs.Valuation.{value_of, InAll};
ghost use Rattle.word_bits.specs.Number.{digit};
ghost use Rattle.word_bits.specs.Words.{unsigned};

use crate::choice::mux;
use crate::sum::add;
use crate::vector::{concat, front, repeated, tail};
use gates::{Gates, Lit, Lits};
use std::alloc::{AllocError, Global};

/// The product of two vectors, modulo two to their width: one row for each bit of the second, each
/// a bit shorter than the last.
pub fn mul(alloc: Global, g: &mut Gates, a: &Lits, b: &Lits) -> Result<Lits, AllocError>
    requires bits { 0 < length a.now }
    requires widths { length a.now ≡ length b.now }
    requires first { AllBelong g.old a.now }
    requires second { AllBelong g.old b.now }
    ensures product { IfOk result (λ r. InAll g.new (λ values.
        unsigned values r ≡ (unsigned values a.now * unsigned values b.now) % 2 ^ length a.now)) }
    ensures width { IfOk result (λ r. length r ≡ length a.now) }
    ensures belongs { IfOk result (AllBelong g.new) }
    ensures grows { Grows g.old g.new }
    ensures conjunctions { AddsConjunctions g.old g.new }
{
    let mut product = repeated(alloc, Lit::FALSE, a.len())?;
    for i in 0..a.len() {
        product = add_row(alloc, g, &product, a, b.get(i), i)?;
    }
    Ok(product)
}

/// The sum of a product so far and, where `bit` is true, of `a` with its lowest bit at place `at`.
fn add_row(
    alloc: Global,
    g: &mut Gates,
    product: &Lits,
    a: &Lits,
    bit: Lit,
    at: usize,
) -> Result<Lits, AllocError>
    requires within { at < length a.now }
    requires widths { length product.now ≡ length a.now }
    requires first { AllBelong g.old product.now }
    requires second { AllBelong g.old a.now }
    requires third { Belongs g.old bit }
    ensures sum { IfOk result (λ r. InAll g.new (λ values.
        unsigned values r ≡
        (unsigned values product.now +
        2 ^ at * digit (value_of values bit) * unsigned values a.now) % 2 ^ length a.now)) }
    ensures width { IfOk result (λ r. length r ≡ length a.now) }
    ensures belongs { IfOk result (AllBelong g.new) }
    ensures grows { Grows g.old g.new }
    ensures conjunctions { AddsConjunctions g.old g.new }
{
    let width = a.len() - at;
    let zeros = repeated(alloc, Lit::FALSE, width)?;
    let part = front(alloc, a, width)?;
    let row = mux(alloc, g, bit, &part, &zeros)?;
    let high = tail(alloc, product, at)?;
    let low = front(alloc, product, at)?;
    let sum = add(alloc, g, &high, &row)?;
    let whole = concat(alloc, &sum, &low)?;
    Ok(whole)
}
