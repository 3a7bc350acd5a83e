#![tactic(auto)]
//! The reading of expressions from tokens, by the rules of the grammar: each function reads what one
//! rule says.

mod expression;
mod operators;

pub use expression::{level, operands};
