#![tactic(auto)]
//! The type of each expression of a model, or what is wrong in it.
//!
//! Names are looked up by whoever knows the instance that an expression stands in; constants and
//! operators have their types by `smv_kinds`. A node with a faulty part has no fault itself, and of
//! all faults the first is answered. `specs/Judging.antt` has the definition, and `specs/Rules.antt`
//! the rules by which an expression has a type.

mod assignment;
mod expression;
mod formula;
mod judged;
mod laws;
mod nodes;
mod scope;
mod standing;
mod target;
mod typings;
mod uses;

pub use assignment::check_assignment;
pub use expression::judge;
pub use formula::check_formula;
pub use judged::Judged;
pub use laws::types_are_by_the_rules;
pub use scope::{DEFINITION, STATE, STEP, Scope};
pub use standing::{Names, Standing};
pub use target::{Target, excludes};
pub use uses::{check_actual, check_body, check_constraint, check_type};
