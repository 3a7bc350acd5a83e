//! The text of a log of clauses: it is written, and read again with the exact fault of a text that is no log.
//!
//! Contracts see the whole text. A text is that of a log exactly where it is read, and its first fault is answered where it is
//! none, but for want of memory.
#![tactic(auto)]

mod fault;
mod read;
mod text;
mod words;
mod write;

pub use fault::LogFault;
pub use text::{read_text, text_len, write_text};
