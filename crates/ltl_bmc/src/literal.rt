#![tactic(auto, using(crate::proofs::Literals::circuits))]

ghost use Rattle.std.specs.Prelude.{◌≡◌, Bool, List, ◌&&◌, ◌||◌, IfOk};
ghost use Rattle.gates.specs.declared.node.Node.{Node};
ghost use Rattle.gates.specs.Nodes.{Grows, AddsConjunctions, Belongs};
ghost use Rattle.gates.specs.Valuation.{value_of, IsValuation};
ghost use Rattle.ltl_form.specs.Rows.{turned};
ghost use Rattle.ltl_bmc.specs.Circuits.{signed_lit};

use gates::{Gates, Lit, lit_not};
use std::alloc::AllocError;

/// A literal that is always true, or always false.
pub(crate) fn constant(value: bool) -> Lit
    ensures node { result.node ≡ 0 }
    ensures value { (nodes : List Node) (values : List Bool) → IsValuation nodes values →
        value_of values result ≡ value }
{
    if value { Lit::TRUE } else { Lit::FALSE }
}

/// A literal, or its negation.
pub(crate) fn signed(a: Lit, negated: bool) -> Lit
    ensures literal { result ≡ signed_lit negated a }
    ensures node { result.node ≡ a.node }
    ensures value { (values : List Bool) → value_of values result ≡
        turned negated (value_of values a) }
{
    if negated { lit_not(a) } else { a }
}

/// The conjunction of two literals, or the dual of it, which is their disjunction: one gate.
pub(crate) fn join(g: &mut Gates, a: Lit, b: Lit, dual: bool) -> Result<Lit, AllocError>
    requires first { Belongs g.old a }
    requires second { Belongs g.old b }
    ensures meaning { IfOk result (λ l. (values : List Bool) → IsValuation g.new values →
        value_of values l ≡ turned dual (turned dual (value_of values a) &&
        turned dual (value_of values b))) }
    ensures belongs { IfOk result (Belongs g.new) }
    ensures grows { Grows g.old g.new }
    ensures conjunctions { AddsConjunctions g.old g.new }
{
    let joined = g.and(signed(a, dual), signed(b, dual))?;
    Ok(signed(joined, dual))
}

/// One step of a sweep: the second, or the first and what comes after; or the dual of it. Two
/// gates.
pub(crate) fn step(
    g: &mut Gates,
    first: Lit,
    second: Lit,
    after: Lit,
    dual: bool,
) -> Result<Lit, AllocError>
    requires first { Belongs g.old first }
    requires second { Belongs g.old second }
    requires after { Belongs g.old after }
    ensures meaning { IfOk result (λ l. (values : List Bool) → IsValuation g.new values →
        value_of values l ≡ turned dual (turned dual (value_of values second) ||
        (turned dual (value_of values first) && turned dual (value_of values after)))) }
    ensures belongs { IfOk result (Belongs g.new) }
    ensures grows { Grows g.old g.new }
    ensures conjunctions { AddsConjunctions g.old g.new }
{
    let both = g.and(signed(first, dual), signed(after, dual))?;
    let neither = g.and(signed(second, !dual), lit_not(both))?;
    Ok(signed(neither, !dual))
}
