#![tactic(auto)]
//! What the shell sees of the outside: where its input comes from, where its text goes, and its
//! files.
//!
//! Three traits say what a reader, a writer and a file store promise. What an object tells of its
//! contents, and its count of faults, are one ghost member of its trait, `told`. The count rises by one
//! with a fault that is answered, and by nothing else. Each call that writes has one clause, `Writes`.
//! Objects in memory meet the traits for tests.

mod calls;
mod files;
mod memory;
mod number;
mod order;
mod sink;
mod sound;
mod source;
#[cfg(test)]
mod tests;
mod text;

pub use files::{FileFault, Files};
pub use memory::{MemFiles, MemSink, MemSource};
pub use number::{is_digit, put_integer, put_number, put_numbered, read_number};
pub use sink::{Sink, put_all, put_parts};
pub use sound::{NullSink, SoundFiles, SoundSource};
pub use source::{Line, LineFault, Source, read_line};
pub use text::{Text, Words};

/// A read or a write failed outside the program.
#[derive(Clone, Copy, Debug, PartialEq, Eq)]
pub struct Failed;
