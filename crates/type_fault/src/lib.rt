#![tactic(auto)]
//! What is wrong with the types of a model: each fault with its number, its place and its text, and
//! which of several is the first.
//!
//! The passes over a model name all that is wrong as a list. What is answered is the first of it.

mod fault;
mod first;
mod names;
mod print;

pub use fault::TypeFault;
pub use first::{earlier, first_fault_is_the_first};
pub use names::{Names, Paths};
