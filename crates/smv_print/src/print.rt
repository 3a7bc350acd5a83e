//! Expressions, as they are printed.

ghost use Rattle.std.specs.Prelude.{◌≡◌, ◌∷◌, ◌++◌, [], OnOk, List, map, ℕ};
ghost use Rattle.outside.specs.Calls.{Writes};
ghost use Rattle.smv_tree.specs.Trees.{arms, expr_tree, one, trees};
ghost use Rattle.smv_printing.specs.declared.lead.Lead.TheVariants as lead_is;
ghost use Rattle.smv_token.specs.declared.mark.Mark.TheVariants as marks;
ghost use Rattle.smv_grammar.specs.Branches.{arm_of};
ghost use Rattle.smv_printing.specs.Printing.{around, bare, branches, call, blank, gap, integer, listed, numeral, printed, spelled, symbol, width};
ghost use Rattle.smv_rules.specs.PartTexts.{SpellsExpr};
ghost use Rattle.smv_print.specs.Written.{Prints, WroteAlike, left_inks, right_inks, separator, then_inks};

use crate::ink::{
    put_blank, put_integer, put_mark, put_number, put_operator, put_path, put_width, put_word,
};
use crate::operators::{is_negation, left_level, level, mark_of_two, misread, right_level};
use outside::{Failed, Sink};
use smv_printing::Lead;
use smv_token::Mark;
use smv_tree::{Branch, Expr, Op1, Op2, Place};

/// Writes the blank between two signs, if there are two.
fn put_gap<S: Sink>(out: &mut S, operand: &Expr) -> Result<(), Failed>
    ensures { Prints (gap (expr_tree operand.now)) (S.told out.old) result (S.told out.new) }
{
    if is_negation(operand) {
        return put_blank(out);
    }
    Ok(())
}

/// Writes a range.
fn put_span<S: Sink>(out: &mut S, low: &i64, high: &i64) -> Result<(), Failed>
    ensures { Prints (integer low.now ++ (symbol marks.Dots ∷ integer high.now)) (S.told out.old) result (S.told out.new) }
{
    put_integer(out, low)?;
    put_mark(out, Mark::Dots)?;
    put_integer(out, high)
}

/// Writes a number and its width as a word.
fn put_constant<S: Sink>(out: &mut S, mark: Mark, value: &i64, bits: u32) -> Result<(), Failed>
    ensures { Prints (symbol mark ∷ symbol marks.OpenRound ∷ (integer value.now ++ width bits)) (S.told out.old) result (S.told out.new) }
{
    put_mark(out, mark)?;
    put_mark(out, Mark::OpenRound)?;
    put_integer(out, value)?;
    put_width(out, bits)
}

/// Writes the places of bits.
fn put_bits<S: Sink>(out: &mut S, high: u32, low: u32) -> Result<(), Failed>
    ensures { Prints (symbol marks.OpenSquare ∷ numeral high ∷ symbol marks.Colon ∷ numeral low ∷ symbol marks.CloseSquare ∷ []) (S.told out.old) result (S.told out.new) }
{
    put_mark(out, Mark::OpenSquare)?;
    put_number(out, high as u64)?;
    put_mark(out, Mark::Colon)?;
    put_number(out, low as u64)?;
    put_mark(out, Mark::CloseSquare)
}

/// Writes a comma and a blank.
fn put_comma<S: Sink>(out: &mut S) -> Result<(), Failed>
    ensures { Prints (symbol marks.Comma ∷ blank ∷ []) (S.told out.old) result (S.told out.new) }
{
    put_mark(out, Mark::Comma)?;
    put_blank(out)
}

/// Writes what stands before an expression of a list that is not the first.
#[tactic(auto, using(crate::proofs::Inks::prints_none))]
fn put_separator<S: Sink>(out: &mut S, later: bool) -> Result<(), Failed>
    ensures { Prints (separator later) (S.told out.old) result (S.told out.new) }
{
    if later {
        return put_comma(out);
    }
    Ok(())
}

/// Writes an expression in the place of a part, in parentheses where it needs them.
#[cycle(print)]
pub fn put_part<S: Sink>(out: &mut S, lead: Lead, place: u32, e: &Expr) -> Result<(), Failed>
    ensures { Prints (spelled lead place (expr_tree e.now)) (S.told out.old) result (S.told out.new) }
{
    if place < level(e) || misread(lead, e) {
        return put_enclosed(out, e);
    }
    put_bare(out, lead, e)
}

/// Writes an expression in parentheses.
#[cycle(print)]
fn put_enclosed<S: Sink>(out: &mut S, inner: &Expr) -> Result<(), Failed>
    ensures { Prints (symbol marks.OpenRound ∷ (bare (expr_tree inner.now) lead_is.Free ++ symbol marks.CloseRound ∷ [])) (S.told out.old) result (S.told out.new) }
{
    put_mark(out, Mark::OpenRound)?;
    put_bare(out, Lead::Free, inner)?;
    put_mark(out, Mark::CloseRound)
}

/// Writes a function of one operand.
#[cycle(print)]
fn put_call<S: Sink>(out: &mut S, mark: Mark, operand: &Expr) -> Result<(), Failed>
    ensures { Prints (call mark (bare (expr_tree operand.now) lead_is.Free)) (S.told out.old) result (S.told out.new) }
{
    put_mark(out, mark)?;
    put_enclosed(out, operand)
}

/// Writes an expression and a width in parentheses.
#[cycle(print)]
fn put_widened<S: Sink>(out: &mut S, mark: Mark, operand: &Expr, bits: u32) -> Result<(), Failed>
    ensures { Prints (symbol mark ∷ symbol marks.OpenRound ∷ (bare (expr_tree operand.now) lead_is.Free ++ width bits)) (S.told out.old) result (S.told out.new) }
{
    put_mark(out, mark)?;
    put_mark(out, Mark::OpenRound)?;
    put_bare(out, Lead::Free, operand)?;
    put_width(out, bits)
}

/// Writes a `!` and its operand.
#[cycle(print)]
fn put_not<S: Sink>(out: &mut S, operand: &Expr) -> Result<(), Failed>
    ensures { Prints (symbol marks.Bang ∷ spelled lead_is.Free 2 (expr_tree operand.now)) (S.told out.old) result (S.told out.new) }
{
    put_mark(out, Mark::Bang)?;
    put_part(out, Lead::Free, 2, operand)
}

/// Writes a `-` and its operand.
#[cycle(print)]
fn put_negated<S: Sink>(out: &mut S, operand: &Expr) -> Result<(), Failed>
    ensures { Prints (symbol marks.Minus ∷ (gap (expr_tree operand.now) ++ spelled lead_is.Minus 4 (expr_tree operand.now))) (S.told out.old) result (S.told out.new) }
{
    put_mark(out, Mark::Minus)?;
    put_gap(out, operand)?;
    put_part(out, Lead::Minus, 4, operand)
}

/// Writes an operator or a function of one operand.
#[cycle(print)]
#[tactic(auto, unfolding(smv_printing::specs::Printing::bare))]
fn put_one<S: Sink>(out: &mut S, place: Place, op: Op1, operand: &Expr) -> Result<(), Failed>
    ensures { Prints (bare (one place op (expr_tree operand.now)) lead_is.Free) (S.told out.old) result (S.told out.new) }
{
    match op {
        Op1::Not => put_not(out, operand),
        Op1::Neg => put_negated(out, operand),
        Op1::Word1 => put_call(out, Mark::WordOne, operand),
        Op1::Bool => put_call(out, Mark::BoolOf, operand),
        Op1::Signed => put_call(out, Mark::Signed, operand),
        Op1::Unsigned => put_call(out, Mark::Unsigned, operand),
        Op1::ToInt => put_call(out, Mark::ToInt, operand),
    }
}

/// Writes the operand to the left of an operator, or the condition before a `?`.
#[cycle(print)]
#[tactic(auto, using(crate::proofs::Inks::prints_none))]
fn put_left<S: Sink>(out: &mut S, lead: Lead, e: &Expr) -> Result<(), Failed>
    ensures { Prints (left_inks (expr_tree e.now) lead) (S.told out.old) result (S.told out.new) }
{
    match e {
        Expr::If(_, left, _, _) | Expr::Two(_, _, left, _) => {
            put_part(out, lead, left_level(level(e)), left)
        }
        _ => Ok(()),
    }
}

/// Writes the first branch of a condition.
#[cycle(print)]
#[tactic(auto, using(crate::proofs::Inks::prints_none))]
fn put_then<S: Sink>(out: &mut S, e: &Expr) -> Result<(), Failed>
    ensures { Prints (then_inks (expr_tree e.now)) (S.told out.old) result (S.told out.new) }
{
    match e {
        Expr::If(_, _, then, _) => put_bare(out, Lead::Free, then),
        _ => Ok(()),
    }
}

/// Writes the operand to the right of an operator, or the second branch of a condition.
#[cycle(print)]
#[tactic(auto, using(crate::proofs::Inks::prints_none))]
fn put_right<S: Sink>(out: &mut S, e: &Expr) -> Result<(), Failed>
    ensures { Prints (right_inks (expr_tree e.now)) (S.told out.old) result (S.told out.new) }
{
    match e {
        Expr::If(_, _, _, right) | Expr::Two(_, _, _, right) => {
            put_part(out, Lead::Free, right_level(level(e)), right)
        }
        _ => Ok(()),
    }
}

/// Writes an operator between its operands.
#[cycle(print)]
fn put_two<S: Sink>(out: &mut S, lead: Lead, mark: Mark, e: &Expr) -> Result<(), Failed>
    ensures { Prints (around (left_inks (expr_tree e.now) lead) mark (right_inks (expr_tree e.now))) (S.told out.old) result (S.told out.new) }
{
    put_left(out, lead, e)?;
    put_operator(out, mark)?;
    put_right(out, e)
}

/// Writes a condition and its branches.
#[cycle(print)]
fn put_if<S: Sink>(out: &mut S, lead: Lead, e: &Expr) -> Result<(), Failed>
    ensures { Prints (around (left_inks (expr_tree e.now) lead) marks.Question (around (then_inks (expr_tree e.now)) marks.Colon (right_inks (expr_tree e.now)))) (S.told out.old) result (S.told out.new) }
{
    put_left(out, lead, e)?;
    put_operator(out, Mark::Question)?;
    put_then(out, e)?;
    put_operator(out, Mark::Colon)?;
    put_right(out, e)
}

/// Writes an expression and the places of its bits.
#[cycle(print)]
fn put_selected<S: Sink>(
    out: &mut S,
    lead: Lead,
    operand: &Expr,
    high: u32,
    low: u32,
) -> Result<(), Failed>
    ensures { Prints (spelled lead 1 (expr_tree operand.now) ++ (symbol marks.OpenSquare ∷ numeral high ∷ symbol marks.Colon ∷ numeral low ∷ symbol marks.CloseSquare ∷ [])) (S.told out.old) result (S.told out.new) }
{
    put_part(out, lead, 1, operand)?;
    put_bits(out, high, low)
}

/// Writes an expression of a list, behind a comma unless it is the first.
#[cycle(print)]
fn put_item<S: Sink>(out: &mut S, later: bool, item: &Expr) -> Result<(), Failed>
    ensures { Prints (separator later ++ bare (expr_tree item.now) lead_is.Free) (S.told out.old) result (S.told out.new) }
{
    put_separator(out, later)?;
    put_bare(out, Lead::Free, item)
}

/// Writes expressions with commas between them.
#[cycle(print)]
fn put_list<S: Sink>(out: &mut S, es: &[Expr]) -> Result<(), Failed>
    ensures { Prints (listed (trees (map expr_tree es.now))) (S.told out.old) result (S.told out.new) }
{
    for (i, e) in es.iter().enumerate() {
        put_item(out, i > 0, e)?;
    }
    Ok(())
}

/// Writes a set.
#[cycle(print)]
fn put_set<S: Sink>(out: &mut S, es: &[Expr]) -> Result<(), Failed>
    ensures { Prints (symbol marks.OpenCurly ∷ (listed (trees (map expr_tree es.now)) ++ symbol marks.CloseCurly ∷ [])) (S.told out.old) result (S.told out.new) }
{
    put_mark(out, Mark::OpenCurly)?;
    put_list(out, es)?;
    put_mark(out, Mark::CloseCurly)
}

/// Writes a function of a list.
#[cycle(print)]
fn put_count<S: Sink>(out: &mut S, es: &[Expr]) -> Result<(), Failed>
    ensures { Prints (call marks.Count (listed (trees (map expr_tree es.now)))) (S.told out.old) result (S.told out.new) }
{
    put_mark(out, Mark::Count)?;
    put_mark(out, Mark::OpenRound)?;
    put_list(out, es)?;
    put_mark(out, Mark::CloseRound)
}

/// Writes a branch of a case.
#[cycle(print)]
fn put_arm<S: Sink>(out: &mut S, arm: &Branch) -> Result<(), Failed>
    ensures { Prints (around (bare (expr_tree arm.now.condition) lead_is.Free) marks.Colon (bare (expr_tree arm.now.value) lead_is.Free ++ (symbol marks.Semicolon ∷ blank ∷ []))) (S.told out.old) result (S.told out.new) }
{
    put_bare(out, Lead::Free, &arm.condition)?;
    put_operator(out, Mark::Colon)?;
    put_bare(out, Lead::Free, &arm.value)?;
    put_mark(out, Mark::Semicolon)?;
    put_blank(out)
}

/// Writes the branches of a case.
#[cycle(print)]
fn put_arms<S: Sink>(out: &mut S, items: &[Branch]) -> Result<(), Failed>
    ensures { Prints (branches (arms (map arm_of items.now))) (S.told out.old) result (S.told out.new) }
{
    for arm in items {
        put_arm(out, arm)?;
    }
    Ok(())
}

/// Writes a case.
#[cycle(print)]
fn put_case<S: Sink>(out: &mut S, items: &[Branch]) -> Result<(), Failed>
    ensures { Prints (symbol marks.Case ∷ blank ∷ (branches (arms (map arm_of items.now)) ++ symbol marks.Esac ∷ [])) (S.told out.old) result (S.told out.new) }
{
    put_mark(out, Mark::Case)?;
    put_blank(out)?;
    put_arms(out, items)?;
    put_mark(out, Mark::Esac)
}

/// Writes an expression without parentheses around it.
#[cycle(print)]
#[tactic(auto, unfolding(smv_printing::specs::Printing::bare))]
fn put_bare<S: Sink>(out: &mut S, lead: Lead, e: &Expr) -> Result<(), Failed>
    ensures { Prints (bare (expr_tree e.now) lead) (S.told out.old) result (S.told out.new) }
{
    match e {
        Expr::Truth(_, true) => put_mark(out, Mark::True),
        Expr::Truth(_, false) => put_mark(out, Mark::False),
        Expr::Number(_, value) => put_number(out, *value),
        Expr::Word(_, value) => put_word(out, *value),
        Expr::Name(_, names) => put_path(out, names.as_slice()),
        Expr::Span(_, low, high) => put_span(out, low, high),
        Expr::Set(_, es) => put_set(out, es.as_slice()),
        Expr::Case(_, items) => put_case(out, items.as_slice()),
        Expr::If(_, _, _, _) => put_if(out, lead, e),
        Expr::One(place, op, operand) => put_one(out, *place, *op, operand),
        Expr::Two(_, op, _, _) => put_two(out, lead, mark_of_two(*op), e),
        Expr::Select(_, operand, high, low) => put_selected(out, lead, operand, *high, *low),
        Expr::Next(_, operand) => put_call(out, Mark::Next, operand),
        Expr::Widen(_, true, operand, bits) => put_widened(out, Mark::Resize, operand, *bits),
        Expr::Widen(_, false, operand, bits) => put_widened(out, Mark::Extend, operand, *bits),
        Expr::Const(_, true, value, bits) => put_constant(out, Mark::SwConst, value, *bits),
        Expr::Const(_, false, value, bits) => put_constant(out, Mark::UwConst, value, *bits),
        Expr::Count(_, es) => put_count(out, es.as_slice()),
    }
}

/// Writes the text of an expression: operators with blanks around them, and parentheses where a part
/// is looser than its place asks. A text that an expression is read from need not be its own, but what
/// is written of it is read as the same expression, places aside.
///
/// # Errors
///
/// `Failed` after a fault of the sink; a front of the text was written then.
#[tactic(auto, using(crate::proofs::Inks::inks_written))]
pub fn print_expr<S: Sink>(e: &Expr, out: &mut S) -> Result<(), Failed>
    ensures written { Writes (printed (expr_tree e.now)) (S.told out.old) result (S.told out.new) }
    // what is written of an expression that a text spells is a text that spells it again, places aside
    ensures again { (bytes : List ℕ) → SpellsExpr bytes (expr_tree e.now) → OnOk result (WroteAlike (S.told out.old) (S.told out.new) (expr_tree e.now)) }
{
    put_bare(out, Lead::Free, e)
}
