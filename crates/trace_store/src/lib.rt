#![tactic(auto)]
//! The traces that a session keeps: each with its origin, under its number.

mod entry;
mod store;

pub use entry::{Entry, Origin};
pub use store::Store;
