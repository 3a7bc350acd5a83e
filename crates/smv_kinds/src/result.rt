//! Results of nodes, as far as integers have to have 64 bits and words a width within its limits.
ghost use Rattle.std.specs.Prelude.{◌≡◌, Result};
ghost use Rattle.smv_kinds.specs.Results.{integers_of, words, number_of_word, given, node_of, is_width};

use crate::{Interval, NodeFault, Sort, Typing};

/// The greatest width of a word.
pub const WIDEST: u64 = 64;

/// Whether a word may have this width.
pub fn is_width(width: u64) -> bool
    ensures { result ≡ is_width width }
{
    1 <= width && width <= WIDEST
}

/// Integers, whose ends have to have 64 bits.
pub(crate) fn integers(ends: Result<Interval, i128>) -> Result<Sort, NodeFault>
    ensures { result ≡ integers_of ends }
{
    match ends {
        Ok(interval) => Ok(Sort::Integer(interval)),
        Err(end) => Err(NodeFault::Interval(end)),
    }
}

/// A word, whose width has to be within its limits.
pub(crate) fn words(signed: bool, width: u64) -> Result<Sort, NodeFault>
    ensures { result ≡ words signed width }
{
    if is_width(width) {
        Ok(Sort::Word(signed, width as u8))
    } else {
        Err(NodeFault::Width)
    }
}

/// The numbers of words of a width, whose ends have to have 64 bits. Those of 128 bits and more are refused
/// by the width.
pub(crate) fn number_of_word(signed: bool, width: u8) -> Result<Sort, NodeFault>
    ensures { result ≡ number_of_word signed width }
{
    if 1 <= width && width <= 127 {
        integers(Interval::of_word(signed, width))
    } else {
        Err(NodeFault::Width)
    }
}

/// A result of this kind.
pub(crate) fn given(sort: Sort) -> Result<Sort, NodeFault>
    ensures { result ≡ given sort }
{
    match sort {
        Sort::Word(signed, width) => words(signed, width as u64),
        other => Ok(other),
    }
}

/// A node of this kind, a set or one value, or with this fault.
pub(crate) fn node(is_set: bool, sort: Result<Sort, NodeFault>) -> Result<Typing, NodeFault>
    ensures { result ≡ node_of is_set sort }
{
    let sort = sort?;
    Ok(Typing { sort, is_set })
}
