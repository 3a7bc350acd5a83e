//! An and-inverter graph with structural hashing: nodes in the order in which they are made, and
//! literals, each a node or its negation, over them.
//!
//! Contracts see the list of nodes. `and` answers a literal whose value is the conjunction in every
//! valuation, adds at most one node, and none for a pair that was answered before; old nodes stay
//! as they are. `Bits::of` computes the one valuation that the inputs give.
#![tactic(auto)]

mod bits;
mod graph;
mod lit;
mod lits;
mod node;
mod truths;

pub use bits::Bits;
pub use graph::Gates;
pub use lit::{Lit, lit_not};
pub use lits::Lits;
pub use node::Node;
pub use truths::Truths;
