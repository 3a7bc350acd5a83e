ghost use Rattle.std.specs.Prelude.{◌≡◌, ℕ, ◌+◌, ◌^◌, ◌<◌, ◌≤◌, ◌&&◌, [], ◌∷◌, ◌++◌, List, length, take, count_by, Option, None, Some, Ok, IfSome, IfOk, OnOk, OnErr};
ghost use Rattle.gates.specs.Literal.{Literal, positive};
ghost use Rattle.gates.specs.Nodes.{node_at, is_conjunction, WellFormed, Grows, AddsConjunctions, Belongs};
ghost use Rattle.gates.specs.declared.node.Node.{Node};
ghost use Rattle.gates.specs.Valuation.{value_of, InAll};
ghost use Rattle.gates.specs.Sharing.{simplified, earlier, later, conjunction, Stands};

use crate::lit::Lit;
use crate::node::Node;
use indexmap::IndexMap;
use std::alloc::{AllocError, Global};
use std::marker::Model;

/// An and-inverter graph whose equal conjunctions are one node.
///
/// Contracts see the list of its nodes, in the order in which they were made.
#[derive(Drop)]
pub struct Gates {
    nodes: Vec<Node>,
    pairs: IndexMap<(Lit, Lit), Lit>,
}

impl Model for Gates {
    ghost use Rattle.std.specs.Prelude.{◌≡◌, List};
    ghost use Rattle.gates.specs.declared.node.Node.{Node};
    ghost use Rattle.gates.specs.Nodes.{WellFormed};
    ghost use Rattle.gates.specs.Sharing.{pairs_from};

    ghost Value = { List Node };

    ghost view = { λ g. g.nodes.items };

    ghost invariant = { λ g. WellFormed g.nodes.items ×
        (g.pairs.entries ≡ pairs_from 0 g.nodes.items) };
}

/// The conjunction of two literals of one node, or of a constant and another literal.
fn simplified_and(a: Lit, b: Lit) -> Option<Lit>
    ensures { result ≡ simplified a b }
{
    if a.node() == b.node() {
        return Some(if a == b { a } else { Lit::FALSE });
    }
    if a.node() == 0 {
        return Some(if a.negative() { a } else { b });
    }
    if b.node() == 0 {
        return Some(if b.negative() { b } else { a });
    }
    None
}

/// Two literals in the order of their nodes.
fn in_order(a: Lit, b: Lit) -> (Lit, Lit)
    ensures first { result.0 ≡ earlier a b }
    ensures second { result.1 ≡ later a b }
{
    if a.node() < b.node() { (a, b) } else { (b, a) }
}

impl Gates {
    /// Gates with no node but the constant.
    pub fn new(alloc: Global) -> Result<Gates, AllocError>
        ensures constant { IfOk result (λ g. g ≡ Node.True ∷ []) }
        ensures well_formed { IfOk result WellFormed }
    {
        Ok(Gates {
            nodes: vec![in alloc; Node::True]?,
            pairs: IndexMap::new(alloc),
        })
    }

    /// How many nodes there are.
    pub fn nodes(&self) -> u64
        ensures count { result ≡ length self.now }
        ensures fits { result < 2 ^ 63 }
        ensures well_formed { WellFormed self.now }
    {
        self.nodes.len() as u64
    }

    /// The node of a number.
    pub fn node(&self, n: u64) -> Node
        requires { n < length self.now }
        ensures node { result ≡ node_at self.now n }
        ensures well_formed { WellFormed self.now }
    {
        self.nodes[n as usize]
    }

    /// How many of the nodes are conjunctions.
    #[tactic(auto, using(crate::proofs::Pairs::count_of_pairs))]
    pub fn count(&self) -> u64
        ensures { result ≡ count_by is_conjunction self.now }
    {
        self.pairs.len() as u64
    }

    /// Adds an input, and gives its positive literal.
    pub fn input(&mut self) -> Result<Lit, AllocError>
        ensures added { OnOk result (self.new ≡ self.old ++ Node.Input ∷ []) }
        ensures literal { IfOk result (λ l. l ≡ positive (length self.old)) }
        ensures belongs { IfOk result (Belongs self.new) }
        ensures err { OnErr result (self.new ≡ self.old) }
        ensures grows { Grows self.old self.new }
        ensures well_formed { WellFormed self.new }
    {
        let node = self.nodes.len() as u64;
        self.nodes.push(Node::Input)?;
        Ok(Lit::positive(node))
    }

    /// A literal whose value is the conjunction of two.
    ///
    /// Equal pairs, in either order, have one literal; a node is added only for a pair that has
    /// none.
    pub fn and(&mut self, a: Lit, b: Lit) -> Result<Lit, AllocError>
        requires first { Belongs self.old a }
        requires second { Belongs self.old b }
        ensures meaning { IfOk result (λ l. InAll self.new (λ values.
            value_of values l ≡ (value_of values a && value_of values b))) }
        ensures belongs { IfOk result (Belongs self.new) }

        // A literal that stood for the conjunction at some time before is the answer, and nothing
        // changes.
        ensures known { (before : List Node) (l : Literal) → Grows before self.old →
            conjunction before a b ≡ Some l → result ≡ Ok l }
        ensures same { (before : List Node) (l : Literal) → Grows before self.old →
            conjunction before a b ≡ Some l → self.new ≡ self.old }

        // Else one node is added, and it stands for the conjunction of the pair in either order
        // from then on.
        ensures added { conjunction self.old a b ≡ None → OnOk result
            (self.new ≡ self.old ++ Node.And (earlier a b) (later a b) ∷ []) }
        ensures stands { IfOk result (λ l. Stands self.new a b l) }
        ensures err { OnErr result (self.new ≡ self.old) }
        ensures grows { Grows self.old self.new }
        ensures conjunctions { AddsConjunctions self.old self.new }
        ensures well_formed { WellFormed self.new }
    {
        match self.find(a, b) {
            Some(known) => Ok(known),
            None => self.join(a, b),
        }
    }

    /// The literal that stands for the conjunction of two already.
    fn find(&self, a: Lit, b: Lit) -> Option<Lit>
        requires first { Belongs self.now a }
        requires second { Belongs self.now b }
        ensures value { result ≡ conjunction self.now a b }
        ensures belongs { IfSome result (Belongs self.now) }
        ensures well_formed { WellFormed self.now }
    {
        let pairs = &self.pairs;
        match simplified_and(a, b) {
            Some(simple) => Some(simple),
            None => pairs.get(&in_order(a, b)).copied(),
        }
    }

    /// Adds a node for the conjunction of two literals, where none stands for it.
    fn join(&mut self, a: Lit, b: Lit) -> Result<Lit, AllocError>
        requires first { Belongs self.old a }
        requires second { Belongs self.old b }
        requires absent { conjunction self.old a b ≡ None }
        ensures added { OnOk result
            (self.new ≡ self.old ++ Node.And (earlier a b) (later a b) ∷ []) }
        ensures literal { IfOk result (λ l. l ≡ positive (length self.old)) }
        ensures err { OnErr result (self.new ≡ self.old) }
        ensures well_formed { WellFormed self.new }
    {
        let (first, second) = in_order(a, b);
        let joined = Lit::positive(self.nodes.len() as u64);
        self.nodes.reserve(1)?;
        self.pairs.insert((first, second), joined)?;
        self.nodes.push(Node::And(first, second)).unwrap();
        Ok(joined)
    }
}
