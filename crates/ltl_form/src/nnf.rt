ghost use Rattle.std.specs.Prelude.{◌≡◌, ℕ, ◌<◌, length};
ghost use Rattle.ltl_form.specs.Nodes.{IsOrdered};

use crate::node::NnfNode;
use std::marker::Model;

/// A formula in negation normal form: at least one node, each naming earlier ones; the last is the
/// formula.
#[derive(Drop)]
pub struct Nnf {
    nodes: Vec<NnfNode>,
}

impl Model for Nnf {
    ghost use Rattle.std.specs.Prelude.{ℕ, ◌<◌, List, length};
    ghost use Rattle.ltl_form.specs.declared.node.NnfNode.{NnfNode};
    ghost use Rattle.ltl_form.specs.Nodes.{IsOrdered};

    ghost Value = { List NnfNode };

    ghost view = { λ n. n.nodes.items };

    ghost invariant = { λ n. (0 < length n.nodes.items) × IsOrdered n.nodes.items };
}

impl Nnf {
    /// The formula of these nodes.
    pub fn from_vec(nodes: Vec<NnfNode>) -> Nnf
        requires some { 0 < length nodes.items }
        requires ordered { IsOrdered nodes.items }
        ensures { result ≡ nodes.items }
    {
        Nnf { nodes }
    }

    /// The nodes.
    pub fn nodes(&self) -> &[NnfNode]
        ensures nodes { result.now ≡ self.now }
        ensures some { 0 < length self.now }
        ensures ordered { IsOrdered self.now }
    {
        self.nodes.as_slice()
    }
}
