#![tactic(auto)]
//! The language of the shell's lines.
//!
//! A line is split into commands, each command's words are made from plain text and the values of
//! variables, and an alias at a command's head is replaced by its words. Variables, aliases and the
//! history of lines are kept here. Each answer is the one that its definition in `specs/` gives, or
//! want of memory; after a refusal nothing has changed.

mod aliases;
mod builder;
mod events;
mod fault;
mod history;
mod known;
mod line;
mod mark;
mod run;
mod split;
mod vars;
mod words;

pub use aliases::Aliases;
pub use events::recall;
pub use fault::LangFault;
pub use history::History;
pub use line::{Command, Commands, Piece, Word};
pub use split::split_line;
pub use vars::Vars;
pub use words::expand;

#[cfg(test)]
mod tests;
