#![tactic(auto)]
//! The tokens of the SMV language: a text becomes tokens with their places, up to its end or to the
//! first place where none begins.

mod laws;
mod left_out;
mod mark;
mod number;
mod token;

pub use laws::symbol_is_longest;
pub use left_out::LeftOut;
pub use mark::Mark;
pub use token::{Flaw, Lexeme, ScannedText, Token, scan};
