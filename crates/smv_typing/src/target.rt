//! What an assignment is to.
ghost use Rattle.std.specs.Prelude.{◌≡◌};
ghost use Rattle.smv_typing.specs.Uses.{excludes};

use smv_kinds::Sort;
use smv_tree::{Kind, Moment};

/// The variable that an assignment is to.
#[derive(Clone, Copy, Debug, PartialEq, Eq)]
pub struct Target {
    pub sort: Sort,
    pub kind: Kind,
    /// Whether an earlier assignment of the module excludes this one.
    pub again: bool,
}

/// Whether two assignments of one variable exclude each other.
pub fn excludes(earlier: Moment, later: Moment) -> bool
    ensures { result ≡ excludes earlier later }
{
    !matches!(
        (earlier, later),
        (Moment::First, Moment::Next) | (Moment::Next, Moment::First)
    )
}
