#![tactic(auto)]
//! The parser of the SMV language. A text becomes the one tree that it spells, or is refused with the
//! first fault that it shows and the place of that.

mod expression_text;
mod faults;
mod first_form;
mod formula_text;
mod program_text;

pub use expression_text::parse_expr;
pub use first_form::is_first_form;
pub use formula_text::parse_formula;
pub use program_text::parse_model;
pub use smv_grammar::ParseFault;
pub use smv_rules::one_spelling;
pub use smv_token::{LeftOut, Mark};
