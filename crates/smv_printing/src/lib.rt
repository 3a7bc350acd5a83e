#![tactic(auto)]
//! What expressions and formulas are printed as, and the law that what is printed of a parsed tree is
//! parsed to it again, places aside. No code but the law: `smv_print` writes what is defined here.

mod again;
mod lead;

pub use again::same_when_printed;
pub use lead::Lead;
