#![tactic(auto)]
//! The types of a whole program: each expression of each instance has its type, or the first fault
//! is answered.
//!
//! `specs/Standings.antt` says what names stand for, `specs/Faults.antt` what is wrong with the types
//! of a program.

mod again;
mod faults;
mod laws;
mod variable;

pub use laws::names_stand_for_one_thing;
pub use variable::{VariableType, Variables};
