//! Gates to clauses, over a solver that is kept from one question to the next.
//!
//! Contracts see the nodes that have their clauses, and the log. The clauses are definitions of
//! nodes alone: what a question wants is assumed while it is searched, and is never a clause.
#![tactic(auto)]

mod bits;
mod counts;
mod encode;
mod kept;
pub mod laws;
mod verdict;

pub use counts::Counts;
pub use kept::Kept;
pub use sat_core::Budget;
pub use verdict::Verdict;
