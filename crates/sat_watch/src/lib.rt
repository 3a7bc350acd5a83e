//! Which clauses watch which literals (Moskewicz and others 2001).
//!
//! Each clause watches two of its literals. Contracts see the two of each clause, and for each
//! literal the list of the clauses that watch it. The lists are threaded through two links of each
//! clause, so to move a watch takes no memory.
#![tactic(auto)]

mod record;
mod watches;

pub use watches::Watches;
