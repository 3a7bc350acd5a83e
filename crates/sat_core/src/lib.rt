//! A solver for clauses that learns from conflicts.
//!
//! It is made once and asked often: variables and clauses are added, and `solve` says whether some
//! literals can be true together. Contracts see the number of variables and the log. Each clause
//! that the solver learns is a line of the log that follows from those before it.
#![tactic(auto)]

mod attach;
mod budget;
mod decide;
pub mod laws;
mod learn;
mod sbits;
mod search;
mod solver;
mod verdict;

pub use budget::Budget;
pub use sbits::SBits;
pub use solver::Solver;
pub use verdict::Verdict;
