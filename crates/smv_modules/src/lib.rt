#![tactic(auto)]
//! The modules of a model before any expression is typed: whether each name is declared once, whether
//! the modules that `main` reaches refer to modules that are there and none contains itself, and the
//! instances of the model.
//!
//! Each pass has the list of its faults in `specs`, and answers the first of them. `check_modules` goes through
//! the passes, and gives the instances where all is right.

mod check;
mod cycles;
mod example;
mod instances;
mod laws;
mod names;
mod nodes;
mod references;
mod scope;

pub use check::check_modules;
pub use cycles::{first_contained, first_cycle_fault};
pub use example::names_are_declared_twice;
pub use instances::{Instance, Instances};
pub use laws::doubled_names_are_declared_again;
pub use names::first_name_fault;
pub use references::first_reference_fault;
