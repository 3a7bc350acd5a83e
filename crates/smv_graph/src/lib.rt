#![tactic(auto)]
//! The modules of a model as a graph, in which each module leads to those of its instance variables:
//! which modules another reaches, which contain themselves, and the first of the shortest cycles through
//! one. What else leads to one another has a graph by its rows.

mod choice;
mod cycle;
mod distances;
mod first_cycle;
mod graph;
mod numbers;
mod reversed;
mod settled;
mod walks;

pub use choice::StepOrder;
pub use graph::Graph;
pub use numbers::{Numbers, module_numbers};
pub use walks::numbers_walk_as_names;
