#![tactic(auto)]
//! The tables of the SMV language: the functions and operators of expressions and of formulas with their
//! levels, as the definitions and the code see them, and the faults of texts.

mod fault;
mod forms;
mod joining;

pub use fault::ParseFault;
pub use forms::{
    ATOMIC, DEEPEST, LOOSEST, OUTERMOST, capped, function_of, infix_of, integer, range_follows,
};
pub use joining::joining_by;
