ghost use Rattle.std.specs.Prelude.{◌≡◌};
ghost use Rattle.smv_kinds.specs.Sorts.{agree, joined, tyword};

use crate::Interval;

/// What an expression has for values. The `bool` of a word says whether it is signed, the number is
/// its width in bits.
#[derive(Clone, Copy, Debug, PartialEq, Eq)]
pub enum Sort {
    Boolean,
    Integer(Interval),
    /// Symbols alone.
    Symbolic,
    /// Integers and symbols.
    Mixed,
    Word(bool, u8),
    /// No value: an instance of a module.
    Instance,
}

/// A kind as refusals name it: that of an expression, or one that is wanted.
#[derive(Clone, Copy, Debug, PartialEq, Eq)]
pub enum TyWord {
    Boolean,
    Integer,
    Symbolic,
    Mixed,
    /// An unsigned word of this width.
    Word(u8),
    /// A signed word of this width.
    Signed(u8),
    Instance,
    /// A wanted word, whatever its width and sign.
    AnyWord,
}

impl Sort {
    /// The kind as refusals name it.
    pub fn word(self) -> TyWord
        ensures { result ≡ tyword self }
    {
        match self {
            Sort::Boolean => TyWord::Boolean,
            Sort::Integer(_) => TyWord::Integer,
            Sort::Symbolic => TyWord::Symbolic,
            Sort::Mixed => TyWord::Mixed,
            Sort::Word(false, width) => TyWord::Word(width),
            Sort::Word(true, width) => TyWord::Signed(width),
            Sort::Instance => TyWord::Instance,
        }
    }

    /// Whether values of the two kinds may be compared, and stand side by side in a set.
    pub fn agrees(self, other: Sort) -> bool
        ensures { result ≡ agree self other }
    {
        match (self, other) {
            (Sort::Boolean, Sort::Boolean) => true,
            (Sort::Word(false, m), Sort::Word(false, n)) => m == n,
            (Sort::Word(true, m), Sort::Word(true, n)) => m == n,
            (
                Sort::Integer(_) | Sort::Symbolic | Sort::Mixed,
                Sort::Integer(_) | Sort::Symbolic | Sort::Mixed,
            ) => true,
            _ => false,
        }
    }

    /// The kind that has the values of both. Only kinds that agree are joined.
    pub fn joined(self, other: Sort) -> Sort
        ensures { result ≡ joined self other }
    {
        match (self, other) {
            (Sort::Integer(a), Sort::Integer(b)) => Sort::Integer(a.hull(b)),
            (Sort::Integer(_), Sort::Symbolic | Sort::Mixed) => Sort::Mixed,
            (Sort::Symbolic, Sort::Integer(_) | Sort::Mixed) => Sort::Mixed,
            _ => self,
        }
    }
}
