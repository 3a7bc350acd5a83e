//! Formulas, as they are printed.

ghost use Rattle.std.specs.Prelude.{◌≡◌, ◌∷◌, ◌++◌, [], OnOk, List, ℕ};
ghost use Rattle.outside.specs.Calls.{Writes};
ghost use Rattle.smv_tree.specs.Models.{formula_claim};
ghost use Rattle.smv_token.specs.declared.mark.Mark.TheVariants as marks;
ghost use Rattle.smv_printing.specs.Printing.{around, blank, claim_inks, claim_level, claim_part, claim_printed, level_of_claim, mark_of_claim, symbol, left_of, right_of};
ghost use Rattle.smv_rules.specs.PartTexts.{SpellsFormulaText};
ghost use Rattle.smv_print.specs.Written.{Prints, WroteAlikeFormula, claim_left_inks, claim_right_inks};

use crate::ink::{put_blank, put_mark, put_operator};
use crate::print::put_part;
use outside::{Failed, Sink};
use smv_grammar::{ATOMIC, OUTERMOST, joining_by};
use smv_printing::Lead;
use smv_token::Mark;
use smv_tree::{FormOp, Formula};

/// The mark that is written for an operator between two formulas.
fn mark_of(op: FormOp) -> Mark
    ensures { result ≡ mark_of_claim op }
{
    match op {
        FormOp::Until => Mark::WordU,
        FormOp::Releases => Mark::WordV,
        FormOp::And => Mark::Ampersand,
        FormOp::Or => Mark::Bar,
        FormOp::Xor => Mark::Xor,
        FormOp::Xnor => Mark::Xnor,
        FormOp::Iff => Mark::Iff,
        FormOp::Implies => Mark::Arrow,
    }
}

/// The level of an operator between two formulas.
fn level_of(op: FormOp) -> u32
    ensures { result ≡ level_of_claim op }
{
    match joining_by(mark_of(op)) {
        Some((level, _)) => level,
        None => 0,
    }
}

/// The level of a formula: that of its operator, or 1.
fn level(f: &Formula) -> u32
    ensures { result ≡ claim_level (formula_claim f.now) }
{
    match f {
        Formula::Atom(_) => 1,
        Formula::Not(_) => 1,
        Formula::Next(_) => 1,
        Formula::Always(_) => 1,
        Formula::Eventually(_) => 1,
        Formula::Two(op, _, _) => level_of(*op),
    }
}

/// The level that the place to the left of an operator asks.
fn left_level(level: u32) -> u32
    ensures { result ≡ left_of level }
{
    if level == OUTERMOST { level - 1 } else { level }
}

/// The level that the place to the right of an operator asks.
fn right_level(level: u32) -> u32
    ensures { result ≡ right_of level }
{
    if level == OUTERMOST {
        level
    } else {
        level.saturating_sub(1)
    }
}

/// Writes a formula in the place of a part, in parentheses where it needs them.
#[cycle(formula)]
fn put_operand<S: Sink>(out: &mut S, place: u32, operand: &Formula) -> Result<(), Failed>
    ensures { Prints (claim_part place (formula_claim operand.now) (claim_inks (formula_claim operand.now))) (S.told out.old) result (S.told out.new) }
{
    if place < level(operand) {
        return put_enclosed(out, operand);
    }
    put_formula(out, operand)
}

/// Writes a formula in parentheses.
#[cycle(formula)]
fn put_enclosed<S: Sink>(out: &mut S, operand: &Formula) -> Result<(), Failed>
    ensures { Prints (symbol marks.OpenRound ∷ (claim_inks (formula_claim operand.now) ++ symbol marks.CloseRound ∷ [])) (S.told out.old) result (S.told out.new) }
{
    put_mark(out, Mark::OpenRound)?;
    put_formula(out, operand)?;
    put_mark(out, Mark::CloseRound)
}

/// Writes a `!` and its operand.
#[cycle(formula)]
fn put_not<S: Sink>(out: &mut S, f: &Formula) -> Result<(), Failed>
    ensures { Prints (symbol marks.Bang ∷ claim_part 1 (formula_claim f.now) (claim_inks (formula_claim f.now))) (S.told out.old) result (S.told out.new) }
{
    put_mark(out, Mark::Bang)?;
    put_operand(out, 1, f)
}

/// Writes a temporal operator and its operand.
#[cycle(formula)]
fn put_temporal<S: Sink>(out: &mut S, mark: Mark, f: &Formula) -> Result<(), Failed>
    ensures { Prints (symbol mark ∷ blank ∷ claim_part 1 (formula_claim f.now) (claim_inks (formula_claim f.now))) (S.told out.old) result (S.told out.new) }
{
    put_mark(out, mark)?;
    put_blank(out)?;
    put_operand(out, 1, f)
}

/// Writes the operand to the left of an operator.
#[cycle(formula)]
#[tactic(auto, using(crate::proofs::Inks::prints_none))]
fn put_left<S: Sink>(out: &mut S, f: &Formula) -> Result<(), Failed>
    ensures { Prints (claim_left_inks (formula_claim f.now)) (S.told out.old) result (S.told out.new) }
{
    match f {
        Formula::Atom(_) => Ok(()),
        Formula::Not(_) => Ok(()),
        Formula::Next(_) => Ok(()),
        Formula::Always(_) => Ok(()),
        Formula::Eventually(_) => Ok(()),
        Formula::Two(op, left, _) => put_operand(out, left_level(level_of(*op)), left),
    }
}

/// Writes the operand to the right of an operator.
#[cycle(formula)]
#[tactic(auto, using(crate::proofs::Inks::prints_none))]
fn put_right<S: Sink>(out: &mut S, f: &Formula) -> Result<(), Failed>
    ensures { Prints (claim_right_inks (formula_claim f.now)) (S.told out.old) result (S.told out.new) }
{
    match f {
        Formula::Atom(_) => Ok(()),
        Formula::Not(_) => Ok(()),
        Formula::Next(_) => Ok(()),
        Formula::Always(_) => Ok(()),
        Formula::Eventually(_) => Ok(()),
        Formula::Two(op, _, right) => put_operand(out, right_level(level_of(*op)), right),
    }
}

/// Writes an operator between its operands.
#[cycle(formula)]
fn put_two<S: Sink>(out: &mut S, mark: Mark, f: &Formula) -> Result<(), Failed>
    ensures { Prints (around (claim_left_inks (formula_claim f.now)) mark (claim_right_inks (formula_claim f.now))) (S.told out.old) result (S.told out.new) }
{
    put_left(out, f)?;
    put_operator(out, mark)?;
    put_right(out, f)
}

/// Writes a formula without parentheses around it.
#[cycle(formula)]
#[tactic(auto, unfolding(smv_printing::specs::Printing::claim_inks))]
fn put_formula<S: Sink>(out: &mut S, f: &Formula) -> Result<(), Failed>
    ensures { Prints (claim_inks (formula_claim f.now)) (S.told out.old) result (S.told out.new) }
{
    match f {
        Formula::Atom(e) => put_part(out, Lead::Atom, ATOMIC, e),
        Formula::Not(a) => put_not(out, a),
        Formula::Next(a) => put_temporal(out, Mark::WordX, a),
        Formula::Always(a) => put_temporal(out, Mark::WordG, a),
        Formula::Eventually(a) => put_temporal(out, Mark::WordF, a),
        Formula::Two(op, _, _) => put_two(out, mark_of(*op), f),
    }
}

/// Writes the text of a formula: operators with blanks around them, and parentheses where a part is
/// looser than its place asks. What is written of a formula that was read from a text is read as the
/// same formula, places aside.
///
/// # Errors
///
/// `Failed` after a fault of the sink; a front of the text was written then.
#[tactic(auto, using(crate::proofs::Inks::inks_written))]
pub fn print_formula<S: Sink>(f: &Formula, out: &mut S) -> Result<(), Failed>
    ensures written { Writes (claim_printed (formula_claim f.now)) (S.told out.old) result (S.told out.new) }
    // what is written of a formula that a text spells is a text that spells it again, places aside
    ensures again { (bytes : List ℕ) → SpellsFormulaText bytes (formula_claim f.now) → OnOk result (WroteAlikeFormula (S.told out.old) (S.told out.new) (formula_claim f.now)) }
{
    put_formula(out, f)
}
