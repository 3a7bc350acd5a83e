ghost use Rattle.std.specs.Prelude.{◌≡◌, ◌≤◌, IfSome};
ghost use Rattle.smv_grammar.specs.Forms.{begins_dots, begins_range, capped, function_of, infix_of, integer};

use smv_token::{Lexeme, Mark, Token};
use smv_tree::{Op1, Op2};

/// How many nestings may be open, and how deep an expression may be.
pub const DEEPEST: u32 = 1000;

/// The loosest level of expressions.
pub const LOOSEST: u32 = 15;

/// The loosest level of the expressions that are atoms of formulas.
pub const ATOMIC: u32 = 10;

/// The loosest level of formulas.
pub const OUTERMOST: u32 = 6;

/// A width or the place of a bit; above 2 to the 32nd less one it stands as that.
pub fn capped(value: u64) -> u32
    ensures { result ≡ capped value }
{
    if value < 4294967295 {
        value as u32
    } else {
        4294967295
    }
}

/// A number with a `-` before it or not. What is above 2 to the 63rd less one stands as that.
pub fn integer(below: bool, value: u64) -> i64
    ensures { result ≡ integer below value }
{
    let magnitude = if value < 9223372036854775807 {
        value as i64
    } else {
        9223372036854775807
    };
    if below { -magnitude } else { magnitude }
}

/// The function of one operand that a word names.
pub fn function_of(mark: Mark) -> Option<Op1>
    ensures { result ≡ function_of mark }
{
    match mark {
        Mark::WordOne => Some(Op1::Word1),
        Mark::BoolOf => Some(Op1::Bool),
        Mark::Signed => Some(Op1::Signed),
        Mark::Unsigned => Some(Op1::Unsigned),
        Mark::ToInt => Some(Op1::ToInt),
        _ => None,
    }
}

/// The operators that group to the left, with their levels.
pub fn infix_of(mark: Mark) -> Option<(u32, Op2)>
    ensures value { result ≡ infix_of mark }
    ensures some { IfSome result (λ o. 1 ≤ o.0) }
    ensures small { IfSome result (λ o. o.0 ≤ 15) }
{
    match mark {
        Mark::Concat => Some((3, Op2::Concat)),
        Mark::Star => Some((5, Op2::Mul)),
        Mark::Slash => Some((5, Op2::Div)),
        Mark::Mod => Some((5, Op2::Mod)),
        Mark::Plus => Some((6, Op2::Add)),
        Mark::Minus => Some((6, Op2::Sub)),
        Mark::ShiftLeft => Some((7, Op2::Shl)),
        Mark::ShiftRight => Some((7, Op2::Shr)),
        Mark::Union => Some((8, Op2::Union)),
        Mark::InWord => Some((9, Op2::In)),
        Mark::Equals => Some((10, Op2::Eq)),
        Mark::Differs => Some((10, Op2::Ne)),
        Mark::Less => Some((10, Op2::Lt)),
        Mark::Greater => Some((10, Op2::Gt)),
        Mark::AtMost => Some((10, Op2::Le)),
        Mark::AtLeast => Some((10, Op2::Ge)),
        Mark::Ampersand => Some((11, Op2::And)),
        Mark::Bar => Some((12, Op2::Or)),
        Mark::Xor => Some((12, Op2::Xor)),
        Mark::Xnor => Some((12, Op2::Xnor)),
        Mark::Iff => Some((14, Op2::Iff)),
        _ => None,
    }
}

/// Whether a `..` is at the front.
fn dots_follow(tokens: &[Token]) -> bool
    ensures { result ≡ begins_dots tokens.now }
{
    let [first, ..] = tokens else {
        return false;
    };
    matches!(first.lexeme, Lexeme::Mark(Mark::Dots))
}

/// Whether a number and a `..` are at the front.
pub fn range_follows(tokens: &[Token]) -> bool
    ensures { result ≡ begins_range tokens.now }
{
    let [first, rest @ ..] = tokens else {
        return false;
    };
    match first.lexeme {
        Lexeme::Number(_) => dots_follow(rest),
        _ => false,
    }
}
