ghost use Rattle.std.specs.Prelude.{◌≡◌, ℕ, ◌<◌, [], ◌∷◌, ◌++◌, if◌then◌else◌, length, IfOk, OnOk};
ghost use Rattle.ltl_form.specs.Nodes.{PartsWithin, AtomWithin, AtomsWithin};
ghost use Rattle.ltl_form.specs.Drafts.{always_node};

use crate::nnf::Nnf;
use crate::node::NnfNode;
use std::alloc::{AllocError, Global};
use std::marker::Model;

/// The nodes of a formula that is being made.
#[derive(Drop)]
pub(crate) struct Draft {
    nodes: Vec<NnfNode>,
}

impl Model for Draft {
    ghost use Rattle.std.specs.Prelude.{List};
    ghost use Rattle.ltl_form.specs.declared.node.NnfNode.{NnfNode};
    ghost use Rattle.ltl_form.specs.Nodes.{IsOrdered};

    ghost Value = { List NnfNode };

    ghost view = { λ n. n.nodes.items };

    ghost invariant = { λ n. IsOrdered n.nodes.items };
}

impl Draft {
    /// No node.
    pub(crate) fn new(alloc: Global) -> Draft
        ensures { result ≡ [] }
    {
        Draft {
            nodes: Vec::new(alloc),
        }
    }

    /// Adds a node, and gives its number.
    pub(crate) fn add(&mut self, node: NnfNode) -> Result<u64, AllocError>
        requires { PartsWithin (length self.old) node }
        ensures added { OnOk result (self.new ≡ self.old ++ node ∷ []) }
        ensures number { IfOk result (λ n. n ≡ length self.old) }
        ensures atoms { (m : ℕ) → AtomWithin m node → AtomsWithin m self.old →
            OnOk result (AtomsWithin m self.new) }
    {
        let number = self.nodes.len() as u64;
        self.nodes.push(node)?;
        Ok(number)
    }

    /// The formula of these nodes.
    pub(crate) fn finish(self) -> Nnf
        requires { 0 < length self }
        ensures { result ≡ self }
    {
        Nnf::from_vec(self.nodes)
    }
}

/// The numbers of two nodes, of which one says a formula and the other its negation.
#[derive(Clone, Copy)]
pub(crate) struct Sides {
    pub(crate) plain: u64,
    pub(crate) negated: u64,
}

impl Sides {
    /// The node of the negation, or of the formula.
    pub(crate) fn side(self, negated: bool) -> u64
        ensures { result ≡ (if negated then self.negated else self.plain) }
    {
        if negated { self.negated } else { self.plain }
    }
}

/// The node that says that a part holds always, or that its negation does some time.
pub(crate) fn throughout(negated: bool, part: u64) -> NnfNode
    ensures { result ≡ always_node negated part }
{
    if negated {
        NnfNode::Eventually(part)
    } else {
        NnfNode::Always(part)
    }
}
