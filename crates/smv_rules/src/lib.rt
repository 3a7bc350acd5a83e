#![tactic(auto)]
//! The grammar of the SMV language as rules over the next token: one table for expressions, formulas
//! and programs, one relation for what they spell, one for what leads to a place, and one reading.

mod laws;

pub use laws::{no_branch_begins_with_esac, one_spelling, reading_is_right};
