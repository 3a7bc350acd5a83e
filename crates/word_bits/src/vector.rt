#![tactic(auto, using(crate::proofs::Circuits::circuits, crate::proofs::Circuits::belongs))]

ghost use Rattle.std.specs.Prelude.{◌≡◌, ◌+◌, ◌*◌, ◌-◌, ◌/◌, ◌%◌, ◌^◌, ◌<◌, ◌≤◌, max, Bool, true, false, ◌&&◌, List, ◌++◌, length, take, drop, replicate, IfOk};
ghost use Rattle.gates.specs.Literal.{span};
ghost use Rattle.gates.specs.Valuation.{value_of, values_of, InAll};
ghost use Rattle.gates.specs.declared.node.Node.{Node};
ghost use Rattle.word_bits.specs.Number.{top};
ghost use Rattle.word_bits.specs.Words.{unsigned, signed};

use gates::{Lit, Lits, lit_not};
use std::alloc::{AllocError, Global};

/// As many copies of a literal.
pub(crate) fn repeated(alloc: Global, bit: Lit, n: usize) -> Result<Lits, AllocError>
    ensures { IfOk result (λ r. r ≡ replicate n bit) }
{
    Ok(Lits::from_vec(vec![in alloc; bit; n]?))
}

/// The negation of each literal.
pub(crate) fn inverted(alloc: Global, a: &Lits) -> Result<Lits, AllocError>
    ensures number { IfOk result (λ r. (values : List Bool) →
        unsigned values r + unsigned values a.now + 1 ≡ 2 ^ length a.now) }
    ensures width { IfOk result (λ r. length r ≡ length a.now) }
    ensures span { IfOk result (λ r. span r ≤ span a.now) }
{
    let mut out = Lits::new(alloc);
    for i in 0..a.len() {
        let bit = lit_not(a.get(i));
        out.push(bit)?;
    }
    Ok(out)
}

/// The lowest bits.
pub(crate) fn front(alloc: Global, a: &Lits, n: usize) -> Result<Lits, AllocError>
    requires { n ≤ length a.now }
    ensures { IfOk result (λ r. r ≡ take n a.now) }
{
    Ok(Lits::from_vec(Vec::from_slice(alloc, &a.as_slice()[..n])?))
}

/// The bits above the lowest.
pub(crate) fn tail(alloc: Global, a: &Lits, n: usize) -> Result<Lits, AllocError>
    requires { n ≤ length a.now }
    ensures { IfOk result (λ r. r ≡ drop n a.now) }
{
    Ok(Lits::from_vec(Vec::from_slice(alloc, &a.as_slice()[n..])?))
}

/// The literal that fills the places above a vector: its highest bit where `copy_sign`, else the
/// false one.
pub(crate) fn filling(a: &Lits, copy_sign: bool) -> Lit
    requires bits { 0 < length a.now }
    ensures value { (nodes : List Node) → InAll nodes (λ values.
        value_of values result ≡ (copy_sign && top (values_of values a.now))) }
    ensures within { result.node < span a.now }
{
    if copy_sign {
        a.get(a.len() - 1)
    } else {
        Lit::FALSE
    }
}

/// The bits from `low` to `high`, both among them.
pub fn select(alloc: Global, a: &Lits, high: usize, low: usize) -> Result<Lits, AllocError>
    requires ordered { low ≤ high }
    requires within { high < length a.now }
    ensures literals { IfOk result (λ r. r ≡ take (high + 1 - low) (drop low a.now)) }
    ensures number { IfOk result (λ r. (values : List Bool) →
        unsigned values r ≡ unsigned values a.now / 2 ^ low % 2 ^ (high + 1 - low)) }
    ensures width { IfOk result (λ r. length r ≡ high + 1 - low) }
    ensures belongs { IfOk result (λ r. span r ≤ span a.now) }
{
    Ok(Lits::from_vec(Vec::from_slice(alloc, &a.as_slice()[low..high + 1])?))
}

/// The bits of `low`, and those of `high` above them.
pub fn concat(alloc: Global, high: &Lits, low: &Lits) -> Result<Lits, AllocError>
    ensures literals { IfOk result (λ r. r ≡ low.now ++ high.now) }
    ensures number { IfOk result (λ r. (values : List Bool) → unsigned values r ≡
        unsigned values low.now + 2 ^ length low.now * unsigned values high.now) }
    ensures width { IfOk result (λ r. length r ≡ length low.now + length high.now) }
    ensures belongs { IfOk result (λ r. span r ≡ max (span low.now) (span high.now)) }
{
    let mut bits = Vec::from_slice(alloc, low.as_slice())?;
    bits.extend_from_slice(high.as_slice())?;
    Ok(Lits::from_vec(bits))
}

/// A vector of `width` bits with the same number, or where `copy_sign` with the same signed number.
pub fn extend(alloc: Global, a: &Lits, width: usize, copy_sign: bool) -> Result<Lits, AllocError>
    requires bits { 0 < length a.now }
    requires wider { length a.now ≤ width }
    ensures number { IfOk result (λ r. (nodes : List Node) → InAll nodes (λ values.
        copy_sign ≡ false → unsigned values r ≡ unsigned values a.now)) }
    ensures signed { IfOk result (λ r. (nodes : List Node) → InAll nodes (λ values.
        copy_sign ≡ true → signed values r ≡ signed values a.now)) }
    ensures width { IfOk result (λ r. length r ≡ width) }
    ensures belongs { IfOk result (λ r. span r ≡ span a.now) }
{
    let above = repeated(alloc, filling(a, copy_sign), width - a.len())?;
    let wide = concat(alloc, &above, a)?;
    Ok(wide)
}
