#![tactic(auto)]
//! The reading of programs from tokens, by the rules of the grammar: each function reads what one rule
//! says.

mod modules;
mod parameters;
mod properties;
mod sections;
mod shapes;
mod types;

pub use modules::program;
