ghost use Rattle.std.specs.Prelude.{◌≡◌, ◌≤◌, IfSome, Some};
ghost use Rattle.smv_token.specs.declared.mark.Mark.TheVariants.{Minus};
ghost use Rattle.smv_expression_reader.specs.Climbing.{infix_at, infix_seen, level_by, next_level, prefix_at, prefix_by, prefix_seen};

use smv_grammar::{infix_of, range_follows};
use smv_reader::Parsed;
use smv_token::{Lexeme, Mark, Token};
use smv_tree::{Op1, Op2, Place};

/// An operand with the operator behind it, while the right operand is read: the level of the right
/// operand, and the level that is wanted of the expression of both.
#[derive(Debug, Drop)]
pub struct Waiting {
    pub left: Parsed,
    pub op: Op2,
    pub place: Place,
    pub tighter: u32,
    pub loosest: u32,
}

/// The level of an operator behind an expression, or 0.
fn level_by(mark: Mark) -> u32
    ensures { result ≡ level_by mark }
{
    match mark {
        Mark::OpenSquare => 1,
        Mark::Question => 13,
        Mark::Arrow => 15,
        _ => match infix_of(mark) {
            Some((level, _)) => level,
            None => 0,
        },
    }
}

/// The level of the operator at the front, or 0.
#[tactic(auto, unfolding(crate::specs::Climbing::next_level))]
pub fn next_level(tokens: &[Token]) -> u32
    ensures { result ≡ next_level tokens.now }
{
    let [first, ..] = tokens else {
        return 0;
    };
    match first.lexeme {
        Lexeme::Mark(mark) => level_by(mark),
        _ => 0,
    }
}

/// The operator between operands at the front: its level, itself, its place, and the tokens behind it.
#[tactic(auto, using(crate::proofs::Turning::infix_least, crate::proofs::Turning::infix_most), unfolding(crate::specs::Climbing::infix_at))]
pub fn infix_at(tokens: &[Token]) -> Option<(u32, Op2, Place, &[Token])>
    ensures value { infix_seen result ≡ infix_at tokens.now }
    ensures least { IfSome result (λ x. 3 ≤ x.0) }
    ensures most { IfSome result (λ x. x.0 ≤ 15) }
{
    let [first, rest @ ..] = tokens else {
        return None;
    };
    let Lexeme::Mark(mark) = first.lexeme else {
        return None;
    };
    match infix_of(mark) {
        Some((level, op)) => Some((level, op, first.place, rest)),
        None => None,
    }
}

/// A `-` before an operand of a level, behind it. It stands before no operand of a level tighter than
/// its own, and before none where it begins a range.
fn minus_at(level: u32, place: Place, rest: &[Token]) -> Option<(u32, Op1, Place, &[Token])>
    ensures value { prefix_seen result ≡ prefix_by level (Some Minus) place rest.now }
    ensures own { IfSome result (λ x. x.0 ≡ 4) }
{
    if level < 4 || range_follows(rest) {
        return None;
    }
    Some((4, Op1::Neg, place, rest))
}

/// The operator before an operand at the front: the level of its operand, itself, its place, and the
/// tokens behind it.
#[tactic(auto, unfolding(crate::specs::Climbing::prefix_at))]
pub fn prefix_at(level: u32, tokens: &[Token]) -> Option<(u32, Op1, Place, &[Token])>
    ensures value { prefix_seen result ≡ prefix_at level tokens.now }
    ensures least { IfSome result (λ x. 2 ≤ x.0) }
    ensures most { IfSome result (λ x. x.0 ≤ 4) }
{
    let [first, rest @ ..] = tokens else {
        return None;
    };
    let Lexeme::Mark(mark) = first.lexeme else {
        return None;
    };
    match mark {
        Mark::Bang => Some((2, Op1::Not, first.place, rest)),
        Mark::Minus => minus_at(level, first.place, rest),
        _ => None,
    }
}
