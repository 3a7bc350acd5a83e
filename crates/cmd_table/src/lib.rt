#![tactic(auto)]
//! Tables of the options that commands take, and the reading of a command's words by its table.
//!
//! A table is data: the options, which of them exclude each other, and how many free words there may
//! be. `read_options` gives each option its word and lists the free words, exactly as the definition
//! in `specs/` says, or refuses the first word that is wrong.

mod check;
pub mod commands;
mod fault;
mod given;
mod next;
mod read;
mod table;
mod word;

pub use fault::OptFault;
pub use given::{Given, OptTexts};
pub use next::begins_with_dash;
pub use read::read_options;
pub use table::{Opt, Table, Takes};
pub use word::{FreeWord, OptWord};

#[cfg(test)]
mod tests;
