#![tactic(auto)]
//! The flat model, whose names are numbers: its types, its states and runs, and the values of its
//! expressions in them.

mod copies;
mod definition_row;
mod definition_table;
mod evaluation;
mod flat_expr;
mod flat_formula;
mod flat_model;
mod flat_moment;
mod flat_values;
mod laws;
mod moment;
mod nodes;
mod partial;
mod runs;
mod spots;
mod state;
mod stated;
mod value_list;

pub use definition_table::DefinitionTable;
pub use evaluation::eval_at;
pub use flat_expr::{FlatBranch, FlatBranches, FlatExpr, FlatExprs, FlatName, Symbol};
pub use flat_formula::FlatFormula;
pub use flat_model::{Constraint, Flat, FlatDef, FlatFault, FlatLists, FlatSpec, FlatVar};
pub use flat_moment::FlatMoment;
pub use flat_values::{eval, holds, holds_at};
pub use laws::{
    held_values_are_those_of_the_expression, held_values_are_those_of_the_model,
    held_values_are_those_of_the_program, values_by_number_are_those_by_path,
};
pub use moment::{Moment, MomentLists};
pub use partial::{Partial, Stateds};
pub use runs::{Inputs, Run, States};
pub use state::{Input, State};
pub use stated::{Stated, StatedValue};
pub use value_list::{EvalFault, ValueList};
