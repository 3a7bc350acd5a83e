#![tactic(auto)]
//! A model of one boolean module, and the replay of a trace's text on it.
//!
//! `BoolModel::read` answers a model exactly where a text is one that can be run, or else why it is
//! none. `BoolModel::judge` says whether a trace is a run of the model, and if not, at which state
//! and at which constraint it stops being one.

mod judge;
mod lines;
mod load;
mod model;
mod names;
mod replay;
mod sections;
mod states;
mod verdict;

pub use load::{BoolModel, ModelFault};
pub use verdict::{Cause, Verdict};
