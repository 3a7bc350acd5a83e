ghost use Rattle.std.specs.Prelude.{◌≡◌};
ghost use Rattle.smv_rules.specs.Keys.{as_function, is_operand, primary_by};
ghost use Rattle.smv_reader.specs.Views.{primary_seen};
ghost use Rattle.smv_grammar.specs.Forms.{function_of};

use smv_grammar::function_of;
use smv_token::{Lexeme, Mark};
use smv_tree::Op1;

/// What opens a nesting: `(`, `{`, `case`, `count`, `next`, a function of one operand, `extend` or
/// (with true) `resize`, `uwconst` or (with true) `swconst`.
#[derive(Clone, Copy, Debug, PartialEq, Eq)]
pub enum Opener {
    Round,
    Set,
    Branches,
    Count,
    Next,
    Function(Op1),
    Widen(bool),
    Const(bool),
}

/// What a mark begins as an expression: a truth value, a path from `self`, a range below zero, or what
/// opens a nesting.
#[derive(Clone, Copy, Debug, PartialEq, Eq)]
pub enum Opening {
    Truth(bool),
    SelfPath,
    Below,
    Opens(Opener),
}

/// The function of one operand that a mark opens.
fn function(mark: Mark) -> Option<Opening>
    ensures { primary_seen result ≡ as_function (function_of mark) }
{
    match function_of(mark) {
        Some(op) => Some(Opening::Opens(Opener::Function(op))),
        None => None,
    }
}

/// What a mark begins as an expression.
#[tactic(auto, unfolding(smv_rules::specs::Keys::primary_by))]
pub fn opening_by(mark: Mark) -> Option<Opening>
    ensures { primary_seen result ≡ primary_by mark }
{
    match mark {
        Mark::True => Some(Opening::Truth(true)),
        Mark::False => Some(Opening::Truth(false)),
        Mark::SelfWord => Some(Opening::SelfPath),
        Mark::Minus => Some(Opening::Below),
        Mark::OpenRound => Some(Opening::Opens(Opener::Round)),
        Mark::OpenCurly => Some(Opening::Opens(Opener::Set)),
        Mark::Case => Some(Opening::Opens(Opener::Branches)),
        Mark::Count => Some(Opening::Opens(Opener::Count)),
        Mark::Next => Some(Opening::Opens(Opener::Next)),
        Mark::UwConst => Some(Opening::Opens(Opener::Const(false))),
        Mark::SwConst => Some(Opening::Opens(Opener::Const(true))),
        Mark::Extend => Some(Opening::Opens(Opener::Widen(false))),
        Mark::Resize => Some(Opening::Opens(Opener::Widen(true))),
        _ => function(mark),
    }
}

/// Whether a token begins an expression, or is an operator before one.
#[tactic(auto, unfolding(smv_grammar::specs::IsMark::same_mark))]
pub fn begins_operand(lexeme: &Lexeme) -> bool
    ensures { result ≡ is_operand lexeme.now }
{
    match lexeme {
        Lexeme::Mark(Mark::Bang) => true,
        Lexeme::Mark(mark) => opening_by(*mark).is_some(),
        Lexeme::Name(_) | Lexeme::Number(_) | Lexeme::Word(_) => true,
    }
}
