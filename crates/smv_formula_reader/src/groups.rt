ghost use Rattle.std.specs.Prelude.{◌≡◌, ◌<◌, IfOk, IfSome};
ghost use Rattle.smv_grammar.specs.Formulas.{bracket_if, holds_temporal, role, start_of};
ghost use Rattle.smv_formula_reader.specs.Flags.{Flagged, closers_on, closes_late, group_flags};
ghost use Rattle.smv_formula_reader.specs.FormulaViews.{start_seen};

use smv_token::{Lexeme, Mark, Token};
use std::alloc::{AllocError, Global};

/// An operator before a formula.
#[derive(Clone, Copy, Debug, PartialEq, Eq)]
pub enum Prefix {
    Not,
    Next,
    Always,
    Eventually,
}

/// What an operand of a formula begins with: an operator before an operand, a bracket that opens a
/// formula, or an atom.
#[derive(Clone, Copy, Debug, PartialEq, Eq)]
pub enum Start {
    Before(Prefix),
    Bracket,
    Atom,
}

/// The brackets that close before the next word that formulas alone have, with one more token before
/// the others.
fn closers_on(token: &Token, closers: Option<usize>) -> Option<usize>
    requires { IfSome closers (λ n. n < 18446744073709551615) }
    ensures { result ≡ closers_on (role token.now) closers }
{
    let Lexeme::Mark(mark) = token.lexeme else {
        return closers;
    };
    match (mark, closers) {
        (Mark::WordX | Mark::WordG | Mark::WordF | Mark::WordU | Mark::WordV, _) => Some(0),
        (Mark::OpenRound, Some(number)) => Some(number.saturating_sub(1)),
        (Mark::CloseRound, Some(number)) => Some(number + 1),
        _ => closers,
    }
}

/// Whether no bracket closes before such a word.
fn holds_word(closers: Option<usize>) -> bool
    ensures { result ≡ closes_late closers 0 }
{
    closers == Some(0)
}

/// For each number of tokens, whether the last so many begin a group that holds a word that formulas
/// alone have.
#[tactic(auto, using(crate::proofs::GroupFlags::flags_none, crate::proofs::GroupFlags::closers_none, crate::proofs::GroupFlags::flags_more, crate::proofs::GroupFlags::closers_more, crate::proofs::GroupFlags::small_more))]
pub fn group_flags(alloc: Global, tokens: &[Token]) -> Result<Vec<bool>, AllocError>
    ensures { IfOk result (λ v. v.items ≡ group_flags tokens.now) }
{
    let mut flags = Vec::new(alloc);
    let mut closers = None;
    let mut index = tokens.len();
    flags.push(false)?;
    'tokens: while index > 0 {
        index -= 1;
        closers = closers_on(&tokens[index], closers);
        flags.push(holds_word(closers))?;
    }
    Ok(flags)
}

/// Whether the group behind a bracket holds a word that formulas alone have.
#[tactic(auto, using(crate::proofs::GroupFlags::flag_within))]
fn holds_temporal(flags: &[bool], rest: &[Token]) -> bool
    requires { Flagged flags.now rest.now }
    ensures { result ≡ holds_temporal 0 rest.now }
{
    flags[rest.len()]
}

/// What a bracket opens.
fn bracket_if(holds: bool) -> Start
    ensures { start_seen result ≡ bracket_if holds }
{
    if holds { Start::Bracket } else { Start::Atom }
}

/// What the tokens begin with.
#[tactic(auto, using(crate::proofs::GroupFlags::flagged_behind))]
pub fn start_of(flags: &[bool], tokens: &[Token]) -> Start
    requires { Flagged flags.now tokens.now }
    ensures { start_seen result ≡ start_of tokens.now }
{
    let [first, rest @ ..] = tokens else {
        return Start::Atom;
    };
    let Lexeme::Mark(mark) = first.lexeme else {
        return Start::Atom;
    };
    match mark {
        Mark::Bang => Start::Before(Prefix::Not),
        Mark::WordX => Start::Before(Prefix::Next),
        Mark::WordG => Start::Before(Prefix::Always),
        Mark::WordF => Start::Before(Prefix::Eventually),
        Mark::OpenRound => bracket_if(holds_temporal(flags, rest)),
        _ => Start::Atom,
    }
}
