#![tactic(auto)]
//! The reading of formulas from tokens, by the rules of the grammar, and what each bracket opens.

mod formulas;
mod groups;

pub use formulas::{ParsedFormula, formula};
pub use groups::group_flags;
