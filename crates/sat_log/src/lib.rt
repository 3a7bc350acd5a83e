#![tactic(auto)]
//! Clauses, and a log of learned clauses that anybody can check again.

mod check;
pub mod laws;
mod line;
mod lists;
mod literal;
mod log;
mod marks;

pub use line::{LineKind, LogLine};
pub use lists::{Ids, SLits};
pub use literal::SLit;
pub use log::{AppendFault, Log, accepts};
pub use marks::Marks;
