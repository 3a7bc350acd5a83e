ghost use Rattle.std.specs.Prelude.{◌≡◌, ℕ, ◌<◌, ◌≤◌, ◌+◌, ◌==◌, [], ◌∷◌, ◌++◌, length, IfOk};
ghost use Rattle.gates.specs.Nodes.{Belongs};
ghost use Rattle.gates.specs.Valuation.{value_at, value_of, next_value, valuation_of, PartsWithin, IsValuation, FollowsInputs};

use crate::graph::Gates;
use crate::lit::Lit;
use crate::node::Node;
use crate::truths::Truths;
use std::alloc::{AllocError, Global};
use std::marker::Model;

/// One truth value for each node of the gates that it was made of.
#[derive(Drop)]
pub struct Bits {
    values: Vec<bool>,
}

impl Model for Bits {
    ghost use Rattle.std.specs.Prelude.{Bool, List};

    ghost Value = { List Bool };

    ghost view = { λ b. b.values.items };
}

impl Bits {
    /// The values of all nodes, where each input has the value at its number in `inputs`.
    pub fn of(alloc: Global, g: &Gates, inputs: &Truths) -> Result<Bits, AllocError>
        requires { length inputs.now ≡ length g.now }
        ensures valuation { IfOk result (IsValuation g.now) }
        ensures one_each { IfOk result (λ bits. length bits ≡ length g.now) }
        ensures inputs { IfOk result (FollowsInputs g.now inputs.now) }
        ensures value { IfOk result (λ bits. bits ≡ valuation_of g.now inputs.now) }
    {
        let nodes = g.nodes();
        let mut bits = Bits {
            values: Vec::with_capacity(alloc, nodes as usize)?,
        };
        for n in 0..nodes {
            let value = bits.node_value(g.node(n), inputs.get(n as usize));
            bits.values.push(value)?;
        }
        Ok(bits)
    }

    /// The value of a node whose parts have values.
    fn node_value(&self, node: Node, input: bool) -> bool
        requires { PartsWithin (length self.now) node }
        ensures { result ≡ next_value self.now node input }
    {
        match node {
            Node::True => true,
            Node::Input => input,
            Node::And(a, b) => self.value(a) && self.value(b),
        }
    }

    /// The value of a literal.
    #[tactic(auto, unfolding(crate::specs::Valuation::value_of))]
    pub fn value(&self, a: Lit) -> bool
        requires { a.node < length self.now }
        ensures { result ≡ value_of self.now a }
    {
        self.values[a.node() as usize] != a.negative()
    }

    /// The values, by the numbers of the nodes.
    pub fn as_slice(&self) -> &[bool]
        ensures { result.now ≡ self.now }
    {
        self.values.as_slice()
    }

    /// The same values once more.
    pub fn copy(&self, alloc: Global) -> Result<Bits, AllocError>
        ensures { IfOk result (λ copy. copy ≡ self.now) }
    {
        Ok(Bits {
            values: Vec::from_slice(alloc, self.values.as_slice())?,
        })
    }
}
