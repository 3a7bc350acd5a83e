//! What is true in a search, and since when.
//!
//! Contracts see the literals that are true, the latest first, each with the level that was open
//! when it became so and the clause that implied it. A backjump takes back exactly what is of later
//! levels.
#![tactic(auto)]

mod order;
mod trail;

pub use trail::{Entry, Trail};
