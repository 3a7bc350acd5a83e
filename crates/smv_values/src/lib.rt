#![tactic(auto)]
//! The operators of the language applied to values: the value that the definition of an operator
//! gives, none where it gives none, and `TooLarge` exactly where the program cannot hold the value.

mod bits;
mod integers;
mod made;
mod number;
mod operators;
mod outcome;
mod truths;
mod widths;
mod words;
mod worked;

pub use operators::{member, one_value, same_value, two_values};
pub use outcome::{Outcome, TooLarge};
pub use widths::{selected, widened, word_of};
pub use worked::{divisions_truncate, members_are_found, words_wrap};
