#![tactic(auto)]
//! The reading of tokens, and of expressions that hold no others, by the rules of the grammar: each
//! function reads what one rule says.

mod halt;
mod opening;
mod parsed;
mod reader;
mod simple;

pub use halt::Halt;
pub use opening::{Opener, Opening, begins_operand, opening_by};
pub use parsed::{Parsed, ParsedCase, ParsedList};
pub use reader::{Reader, begins_with};
