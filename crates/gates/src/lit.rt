ghost use Rattle.std.specs.Prelude.{◌≡◌, ℕ, ◌+◌, ◌*◌, ◌/◌, ◌%◌, ◌^◌, ◌<◌, true, false, not, Bool, List};
ghost use Rattle.gates.specs.Literal.{negated};
ghost use Rattle.gates.specs.Valuation.{value_of};

use std::marker::Model;

/// A literal: a node, or its negation.
///
/// It is one number, twice the node with the sign in the lowest bit, as in the AIGER format.
#[derive(Clone, Copy, PartialEq, Eq, Hash)]
pub struct Lit {
    code: u64,
}

impl Model for Lit {
    ghost use Rattle.gates.specs.Literal.{Literal, code_of, literal_of};
    ghost use Rattle.gates.specs.Codes.{code_of-literal_of};

    ghost Value = { Literal };

    ghost view = { λ a. literal_of a.code };

    ghost inverse = { λ l. record { code = code_of l } };

    ghost inverse_ok = { λ a _ i. record { code = code_of-literal_of a.code i } };
}

impl Lit {
    /// The literal that is always true.
    pub const TRUE: Lit = Lit { code: 0 };

    /// The literal that is always false.
    pub const FALSE: Lit = Lit { code: 1 };

    /// The literal of a node, not negated.
    pub fn positive(node: u64) -> Lit
        requires { node < 2 ^ 63 }
        ensures node { result.node ≡ node }
        ensures positive { result.negative ≡ false }
    {
        Lit { code: 2 * node }
    }

    /// The number of its node.
    pub fn node(self) -> u64
        ensures { result ≡ self.node }
    {
        self.code / 2
    }

    /// Whether it is the negation of its node.
    pub fn negative(self) -> bool
        ensures { result ≡ self.negative }
    {
        self.code % 2 == 1
    }
}

/// The negation of a literal.
pub fn lit_not(a: Lit) -> Lit
    ensures negation { result ≡ negated a }
    ensures node { result.node ≡ a.node }
    ensures value { (values : List Bool) → value_of values result ≡ not (value_of values a) }
{
    flipped(a)
}

/// A literal with the other sign.
fn flipped(a: Lit) -> Lit
    ensures { result ≡ negated a }
{
    Lit { code: a.code ^ 1 }
}
