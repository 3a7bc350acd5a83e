#![tactic(auto)]
//! Formulas of linear temporal logic in negation normal form, and their truth on lassos and on
//! paths.
//!
//! A formula is a list of nodes, each of which names earlier ones. `to_nnf` makes them of a
//! formula whose atoms are numbers: negations go down to the atoms, and what stands under an
//! operator that compares truths is made once as it is and once negated. `lasso_truth` and
//! `short_truth` tell its truth where a table says which atoms hold in which states. Each node
//! has one row of truth values, made from the rows of its parts from the last place to the first,
//! around a loop twice.

mod draft;
mod joins;
mod lasso;
mod laws;
mod nnf;
mod node;
mod normalize;
mod numbered;
mod row;
mod short;
mod table;

pub use lasso::lasso_truth;
pub use laws::{normal_forms_say_the_same, normal_forms_tell_truth, rows_tell_truth};
pub use nnf::Nnf;
pub use node::NnfNode;
pub use normalize::to_nnf;
pub use numbered::NumberedFormula;
pub use short::short_truth;
pub use table::Table;
