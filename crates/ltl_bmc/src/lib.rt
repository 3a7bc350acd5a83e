#![tactic(auto)]
//! Formulas of linear temporal logic on lassos and paths, as gates.
//!
//! `encode_loop` and `encode_short` give a literal whose value is the truth of a formula in
//! negation normal form at the first place, whatever values the literals of its atoms have. Each
//! node of the formula has one row of literals, made from the rows of its parts from the last
//! place to the first, around a loop twice; so the gates are at most linear in the nodes times
//! the places, and equal parts of different loops are found by the gates' hashing.

mod literal;
mod loops;
mod paths;
mod row;
mod sweeps;
mod table;

pub use loops::encode_loop;
pub use paths::encode_short;
pub use table::LitTable;
