//! The operators of expressions, as they are printed: their marks, and where they ask for parentheses.

ghost use Rattle.std.specs.Prelude.{◌≡◌};
ghost use Rattle.smv_tree.specs.Trees.{expr_tree};
ghost use Rattle.smv_printing.specs.Printing.{is_negation, left_level, level, level_of_one, mark_of_two, misread, operator_level, right_level, to_right};

use smv_grammar::infix_of;
use smv_printing::Lead;
use smv_token::Mark;
use smv_tree::{Expr, Op1, Op2};

/// The mark that is written for an operator of two operands.
pub fn mark_of_two(op: Op2) -> Mark
    ensures { result ≡ mark_of_two op }
{
    match op {
        Op2::Concat => Mark::Concat,
        Op2::Mul => Mark::Star,
        Op2::Div => Mark::Slash,
        Op2::Mod => Mark::Mod,
        Op2::Add => Mark::Plus,
        Op2::Sub => Mark::Minus,
        Op2::Shl => Mark::ShiftLeft,
        Op2::Shr => Mark::ShiftRight,
        Op2::Union => Mark::Union,
        Op2::In => Mark::InWord,
        Op2::Eq => Mark::Equals,
        Op2::Ne => Mark::Differs,
        Op2::Lt => Mark::Less,
        Op2::Gt => Mark::Greater,
        Op2::Le => Mark::AtMost,
        Op2::Ge => Mark::AtLeast,
        Op2::And => Mark::Ampersand,
        Op2::Or => Mark::Bar,
        Op2::Xor => Mark::Xor,
        Op2::Xnor => Mark::Xnor,
        Op2::Iff => Mark::Iff,
        Op2::Implies => Mark::Arrow,
    }
}

/// The level of an operator or a function of one operand.
fn level_of_one(op: Op1) -> u32
    ensures { result ≡ level_of_one op }
{
    match op {
        Op1::Not => 2,
        Op1::Neg => 4,
        _ => 1,
    }
}

/// The level of the operator of two operands that a mark is, or 0.
fn operator_level(mark: Mark) -> u32
    ensures { result ≡ operator_level mark }
{
    match mark {
        Mark::Arrow => 15,
        _ => match infix_of(mark) {
            Some((level, _)) => level,
            None => 0,
        },
    }
}

/// The level of an expression: that of its operator, or 1.
pub fn level(e: &Expr) -> u32
    ensures { result ≡ level (expr_tree e.now) }
{
    match e {
        Expr::If(_, _, _, _) => 13,
        Expr::One(_, op, _) => level_of_one(*op),
        Expr::Two(_, op, _, _) => operator_level(mark_of_two(*op)),
        _ => 1,
    }
}

/// Whether the operators of a level group to the right.
fn to_right(level: u32) -> bool
    ensures { result ≡ to_right level }
{
    level == 13 || level == 15
}

/// The level that the place to the left of an operator asks.
pub fn left_level(level: u32) -> u32
    ensures { result ≡ left_level level }
{
    if to_right(level) { level - 1 } else { level }
}

/// The level that the place to the right of an operator asks.
pub fn right_level(level: u32) -> u32
    ensures { result ≡ right_level level }
{
    if to_right(level) {
        level
    } else {
        level.saturating_sub(1)
    }
}

/// Whether the expression would be misread behind what stands before it.
pub fn misread(lead: Lead, e: &Expr) -> bool
    ensures { result ≡ misread lead (expr_tree e.now) }
{
    match (lead, e) {
        (Lead::Minus, Expr::Span(_, _, _)) => true,
        (Lead::Atom, Expr::One(_, Op1::Not, _)) => true,
        _ => false,
    }
}

/// Whether the expression is a `-` before an operand.
pub fn is_negation(e: &Expr) -> bool
    ensures { result ≡ is_negation (expr_tree e.now) }
{
    matches!(e, Expr::One(_, Op1::Neg, _))
}
