#![tactic(auto, using(crate::proofs::Circuits::circuits, crate::proofs::Circuits::belongs))]

ghost use Rattle.std.specs.Prelude.{◌≡◌, length, IfOk, if◌then◌else◌};
ghost use Rattle.gates.specs.Nodes.{Grows, AddsConjunctions, Belongs, AllBelong};
ghost use Rattle.gates.specs.Valuation.{value_of, values_of, InAll};
ghost use Rattle.word_bits.specs.Words.{unsigned};

use crate::bit::choose;
use gates::{Gates, Lit, Lits};
use std::alloc::{AllocError, Global};

/// The first of two vectors where `c` is true, else the second: three gates a bit.
pub fn mux(alloc: Global, g: &mut Gates, c: Lit, a: &Lits, b: &Lits) -> Result<Lits, AllocError>
    requires widths { length a.now ≡ length b.now }
    requires test { Belongs g.old c }
    requires first { AllBelong g.old a.now }
    requires second { AllBelong g.old b.now }
    ensures bits { IfOk result (λ r. InAll g.new (λ values.
        values_of values r ≡
        (if value_of values c then values_of values a.now else values_of values b.now))) }
    ensures number { IfOk result (λ r. InAll g.new (λ values.
        unsigned values r ≡
        (if value_of values c then unsigned values a.now else unsigned values b.now))) }
    ensures width { IfOk result (λ r. length r ≡ length a.now) }
    ensures belongs { IfOk result (AllBelong g.new) }
    ensures grows { Grows g.old g.new }
    ensures conjunctions { AddsConjunctions g.old g.new }
{
    let mut out = Lits::new(alloc);
    for i in 0..a.len() {
        let bit = choose(g, c, a.get(i), b.get(i))?;
        out.push(bit)?;
    }
    Ok(out)
}
