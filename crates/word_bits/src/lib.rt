//! Word circuits over gates: sums, comparisons, products, quotients and selections of vectors of
//! any length, lowest bit first.
//!
//! Each call says, for every valuation of the gates after it, which number its answer spells, as a
//! function of the numbers that its operands spell. Old nodes stay as they are, and the literals of
//! an answer belong to the gates after the call.
#![tactic(auto)]

mod bit;
mod choice;
mod compare;
mod division;
mod product;
mod shift;
mod sum;
mod vector;

pub use choice::mux;
pub use compare::{eq, slt, ult};
pub use division::{sdiv_rem, udiv_rem};
pub use product::mul;
pub use shift::{shl, shr};
pub use sum::{add, neg, sub};
pub use vector::{concat, extend, select};
