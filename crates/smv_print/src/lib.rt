#![tactic(auto)]
//! The printer of expressions and formulas. What is printed of a parsed tree is parsed to it again,
//! places aside.

mod formula_print;
mod ink;
mod operators;
mod print;

pub use formula_print::print_formula;
pub use print::print_expr;
pub use smv_printing::same_when_printed;
