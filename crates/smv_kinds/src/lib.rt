#![tactic(auto)]
//! Kinds of expressions: which of them agree, which integers an expression may have, and what each
//! operator takes and gives.
//!
//! All that is said of an operator stands in one table, `OPERATORS`. The functions of this crate type
//! one node of an expression from the types of its parts, or tell what is wrong at that node.

mod interval;
mod laws;
mod nodes;
mod operators;
mod result;
mod sort;
mod standing;
mod table;
mod typing;
mod wide;
mod worked;

pub use interval::Interval;
pub use laws::results_have_a_width;
pub use nodes::{
    cases_typing, const_typing, count_typing, next_typing, number_typing, select_typing,
    set_typing, span_typing, widen_typing, word_typing,
};
pub use operators::{each_operator_has_one_line, one_typing, two_typing};
pub use result::{WIDEST, is_width};
pub use sort::{Sort, TyWord};
pub use standing::type_fault;
pub use typing::{NodeFault, Typing};
pub use worked::{integers_are_made, others_are_refused};
