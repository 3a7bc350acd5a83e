ghost use Rattle.std.specs.Prelude.{IfErr, IfOk, Ok, Err};
ghost use Rattle.smv_tree.specs.Models.{Claim, formula_claim};
ghost use Rattle.smv_reader.specs.Halts.{Reads};
ghost use Rattle.smv_rules.specs.Verdicts.{Answers, Unless, judged_by, verdict};
ghost use Rattle.smv_rules.specs.PartTexts.{ExplainsFormula, SpellsFormulaText};
ghost use Rattle.smv_parse.specs.TextReading.{formula_of};

use crate::faults::{fault_of, halt_fault};
use smv_formula_reader::{formula, group_flags};
use smv_grammar::{DEEPEST, OUTERMOST, ParseFault};
use smv_reader::{Halt, Reader};
use smv_token::{ScannedText, Token, scan};
use smv_tree::Formula;
use std::alloc::{AllocError, Global};

/// The formula of all tokens.
#[tactic(auto, using(smv_formula_reader::proofs::GroupFlags::all_flagged), unfolding(crate::specs::TextReading::formula_of))]
fn whole_formula(alloc: Global, tokens: &[Token]) -> Result<Formula, Halt>
    ensures { Reads formula_claim result (formula_of tokens.now) }
{
    let flags = group_flags(alloc, tokens)?;
    let reader = Reader {
        alloc,
        room: DEEPEST,
    };
    let (part, rest) = formula(reader, flags.as_slice(), OUTERMOST, tokens)?;
    if !rest.is_empty() {
        return Err(Halt::Wrong(rest.len()));
    }
    Ok(part.formula)
}

/// The verdict on the tokens of a text.
#[tactic(auto, using(crate::proofs::TextVerdicts::formula_within, crate::proofs::TextVerdicts::formula_deep))]
fn judge(alloc: Global, text: &ScannedText) -> Result<Formula, ParseFault>
    ensures { Answers formula_claim result (verdict text.now.tokens.items text.now.stop text.now.end (formula_of text.now.tokens.items)) }
{
    match whole_formula(alloc, text.tokens.as_slice()) {
        Ok(formula) => match text.stop {
            None => Ok(formula),
            Some((place, flaw)) => Err(fault_of(alloc, place, flaw)),
        },
        Err(halt) => Err(halt_fault(alloc, text, halt)),
    }
}

/// The verdict on a text.
fn read_text(alloc: Global, bytes: &[u8]) -> Result<Formula, ParseFault>
    ensures { Answers formula_claim result (judged_by formula_of bytes.now) }
{
    let text = scan(alloc, bytes)?;
    judge(alloc, &text)
}

/// The formula that a text spells.
///
/// # Errors
///
/// The fault that the text shows first, `NoMemory` where memory is refused. A place is that of the
/// first byte of a token, or the one behind the last byte of the text.
pub fn parse_formula(alloc: Global, bytes: &[u8]) -> Result<Formula, ParseFault>
    // what is read is spelled so
    ensures found { IfOk result (λ f. SpellsFormulaText bytes.now (formula_claim f)) }
    // what is spelled so is read, unless memory runs out
    ensures only { (x : Claim) → SpellsFormulaText bytes.now x → Answers formula_claim result (Ok x) }
    // what is refused has that fault
    ensures refused { IfErr result (λ f. Unless f (ExplainsFormula bytes.now f)) }
    // what has a fault is refused for it, unless memory runs out
    ensures cause { (f : ParseFault) → ExplainsFormula bytes.now f → Answers formula_claim result (Err f) }
{
    read_text(alloc, bytes)
}
