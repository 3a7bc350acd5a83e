ghost use Rattle.std.specs.Prelude.{◌≡◌};
ghost use Rattle.smv_kinds.specs.Results.{single};

use crate::{Sort, TyWord};

/// The type of an expression: its kind, and whether it is a set of such values.
#[derive(Clone, Copy, Debug, PartialEq, Eq)]
pub struct Typing {
    pub sort: Sort,
    pub is_set: bool,
}

/// What is wrong at a node of an expression whose parts have types.
#[derive(Clone, Copy, Debug, PartialEq, Eq)]
pub enum NodeFault {
    /// The kinds of two operands that don't go together; or that of one, and the one that is wanted.
    Operands(TyWord, TyWord),
    /// A set where one value is wanted.
    SetHere,
    /// A range whose first number is above its last.
    Reversed,
    /// A width, or the number of a bit, out of range.
    Width,
    /// An integer may be outside 64 bits: the first end that is.
    Interval(i128),
}

impl Typing {
    /// The type of one value.
    pub fn single(sort: Sort) -> Typing
        ensures { result ≡ single sort }
    {
        Typing {
            sort,
            is_set: false,
        }
    }
}
