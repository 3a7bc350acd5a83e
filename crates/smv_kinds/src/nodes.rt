//! Nodes of constants, functions of words, lists and branches.
ghost use Rattle.std.specs.Prelude.{◌≡◌, not, find, fold, IsOk, MatchOption};
ghost use Rattle.smv_kinds.specs.Sorts.{agree, joined};
ghost use Rattle.smv_kinds.specs.Nodes.{number_typing, word_typing, span_typing, bits_of, select_typing, bits_in, widen_typing, const_typing, next_typing, is_boolean, no_boolean, has_set, some_set, strange, clash, together, set_typing, count_typing, cases_typing};

use crate::result::{given, integers, node, words};
use crate::{Interval, NodeFault, Sort, TyWord, Typing, wide};
use smv_tree::WordVal;

/// A number.
///
/// # Errors
///
/// The fault of the node; so for all that is like it.
pub fn number_typing(n: u64) -> Result<Typing, NodeFault>
    ensures { result ≡ number_typing n }
{
    let end = wide::natural(n as u128);
    node(false, integers(Interval::kept(end, end)))
}

/// The constant of a word.
pub fn word_typing(w: &WordVal) -> Result<Typing, NodeFault>
    ensures { result ≡ word_typing w.now }
{
    node(false, words(w.signed(), w.width() as u64))
}

/// The set of the numbers from the first to the second.
pub fn span_typing(low: i64, high: i64) -> Result<Typing, NodeFault>
    ensures { result ≡ span_typing low high }
{
    if low <= high {
        Ok(Typing {
            sort: Sort::Integer(Interval { low, high }),
            is_set: true,
        })
    } else {
        Err(NodeFault::Reversed)
    }
}

/// The kind of the bits from high down to low of a word of this width.
fn bits(high: u32, low: u32, width: u8) -> Result<Sort, NodeFault>
    ensures { result ≡ bits_of high low width }
{
    if low <= high && high < width as u32 {
        words(false, (high - low) as u64 + 1)
    } else {
        Err(NodeFault::Width)
    }
}

/// The bits from high down to low of a word.
pub fn select_typing(high: u32, low: u32, operand: Typing) -> Result<Typing, NodeFault>
    ensures { result ≡ select_typing high low operand }
{
    match operand.sort {
        Sort::Word(..) if operand.is_set => Err(NodeFault::SetHere),
        Sort::Word(_, width) => node(false, bits(high, low, width)),
        other => Err(NodeFault::Operands(other.word(), TyWord::AnyWord)),
    }
}

/// A word with so many bits, or with so many more.
pub fn widen_typing(resize: bool, count: u32, operand: Typing) -> Result<Typing, NodeFault>
    ensures { result ≡ widen_typing resize count operand }
{
    match operand.sort {
        Sort::Word(..) if operand.is_set => Err(NodeFault::SetHere),
        Sort::Word(signed, _) if resize => node(false, words(signed, count as u64)),
        Sort::Word(signed, width) => node(false, words(signed, width as u64 + count as u64)),
        other => Err(NodeFault::Operands(other.word(), TyWord::AnyWord)),
    }
}

/// A number as a word of this width.
pub fn const_typing(signed: bool, width: u32) -> Result<Typing, NodeFault>
    ensures { result ≡ const_typing signed width }
{
    node(false, words(signed, width as u64))
}

/// The value at the next moment.
pub fn next_typing(operand: Typing) -> Result<Typing, NodeFault>
    ensures { result ≡ next_typing operand }
{
    if operand.is_set {
        Err(NodeFault::SetHere)
    } else {
        node(false, given(operand.sort))
    }
}

impl Sort {
    /// Whether this is the kind of truth values.
    pub fn is_boolean(self) -> bool
        ensures { result ≡ is_boolean self }
    {
        matches!(self, Sort::Boolean)
    }
}

/// The first that is no boolean.
fn find_other(typings: &[Typing]) -> Option<Typing>
    ensures { result ≡ find (λ t. not (is_boolean t.sort)) typings.now }
{
    typings.iter().copied().find(|t| !t.sort.is_boolean())
}

/// That one of them is no boolean.
#[tactic(auto, unfolding(crate::specs::Nodes::no_boolean))]
fn no_boolean(typings: &[Typing]) -> Option<NodeFault>
    ensures { result ≡ no_boolean typings.now }
{
    match find_other(typings) {
        Some(first) => Some(NodeFault::Operands(first.sort.word(), TyWord::Boolean)),
        None => None,
    }
}

/// Whether one of them is a set.
fn has_set(typings: &[Typing]) -> bool
    ensures { result ≡ has_set typings.now }
{
    typings.iter().any(|t| t.is_set)
}

/// That one of them is a set.
#[tactic(auto, unfolding(crate::specs::Nodes::some_set))]
fn some_set(typings: &[Typing]) -> Option<NodeFault>
    ensures { result ≡ some_set typings.now }
{
    if has_set(typings) {
        Some(NodeFault::SetHere)
    } else {
        None
    }
}

/// The first that doesn't agree with this kind.
fn find_stranger(sort: Sort, typings: &[Typing]) -> Option<Typing>
    ensures { result ≡ find (λ t. not (agree sort t.sort)) typings.now }
{
    typings.iter().copied().find(|t| !sort.agrees(t.sort))
}

/// That one of them doesn't agree with this kind.
#[tactic(auto, unfolding(crate::specs::Nodes::strange))]
fn strange(sort: Sort, typings: &[Typing]) -> Option<NodeFault>
    ensures { result ≡ strange sort typings.now }
{
    match find_stranger(sort, typings) {
        Some(other) => Some(NodeFault::Operands(sort.word(), other.sort.word())),
        None => None,
    }
}

/// That one of them doesn't agree with the first.
#[tactic(auto, unfolding(crate::specs::Nodes::clash))]
fn clash(typings: &[Typing]) -> Option<NodeFault>
    ensures { result ≡ clash typings.now }
{
    match typings {
        [first, rest @ ..] => strange(first.sort, rest),
        [] => None,
    }
}

/// The kind of what has values of this kind and of those.
fn joined_with(first: Sort, typings: &[Typing]) -> Sort
    ensures { result ≡ fold (λ s t. joined s t.sort) first typings.now }
{
    typings.iter().fold(first, |sort, t| sort.joined(t.sort))
}

/// The kind of what has the values of all.
#[tactic(auto, unfolding(crate::specs::Nodes::together))]
fn together(typings: &[Typing]) -> Sort
    ensures { result ≡ together typings.now }
{
    match typings {
        [first, rest @ ..] => joined_with(first.sort, rest),
        [] => Sort::Symbolic,
    }
}

/// A fault, if there is one.
fn refused(fault: Option<NodeFault>) -> Result<(), NodeFault>
    ensures { MatchOption fault (IsOk result) (λ f. result ≡ Err f) }
{
    match fault {
        Some(fault) => Err(fault),
        None => Ok(()),
    }
}

/// A set of these members.
#[tactic(auto, unfolding(crate::specs::Nodes::set_typing))]
pub fn set_typing(members: &[Typing]) -> Result<Typing, NodeFault>
    ensures { result ≡ set_typing members.now }
{
    refused(clash(members))?;
    node(true, given(together(members)))
}

/// How many of these are true.
#[tactic(auto, unfolding(crate::specs::Nodes::count_typing))]
pub fn count_typing(operands: &[Typing]) -> Result<Typing, NodeFault>
    ensures { result ≡ count_typing operands.now }
{
    refused(no_boolean(operands))?;
    refused(some_set(operands))?;
    let most = wide::natural(operands.len() as u128);
    node(false, integers(Interval::kept(0, most)))
}

/// The branch that conditions choose.
#[tactic(auto, unfolding(crate::specs::Nodes::cases_typing))]
pub fn cases_typing(conditions: &[Typing], branches: &[Typing]) -> Result<Typing, NodeFault>
    ensures { result ≡ cases_typing conditions.now branches.now }
{
    refused(no_boolean(conditions))?;
    refused(clash(branches))?;
    refused(some_set(conditions))?;
    node(has_set(branches), given(together(branches)))
}
