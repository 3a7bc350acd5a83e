//! Unit propagation.
//!
//! What the clauses of a log imply becomes true, until a clause is false, or each is true or has
//! two unset literals.
//! `Propagation` looks only at clauses that watch a literal which became false (Moskewicz and
//! others 2001).
#![tactic(auto)]

pub mod laws;
mod propagation;

pub use propagation::{Line, Propagation};
