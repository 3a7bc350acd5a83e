//! What is learned from a conflict (Marques-Silva and Sakallah 1996).
//!
//! From a clause that is false, or from a wanted literal that is, a walk goes back along the trail.
//! It comes to a clause with hints by which a log accepts it: that of the first unique implication
//! point, or one over negations of decisions.
#![tactic(auto)]

mod analysis;
mod analyze;

pub use analysis::Analysis;
