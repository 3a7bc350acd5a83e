ghost use Rattle.std.specs.Prelude.{◌≤◌, IfErr, IfOk, List, Ok, Err, length};
ghost use Rattle.smv_tree.specs.Models.{Body, bodies};
ghost use Rattle.smv_reader.specs.Halts.{Reads};
ghost use Rattle.smv_rules.specs.Verdicts.{Answers, Unless, judged_by, verdict};
ghost use Rattle.smv_rules.specs.Texts.{ExplainsProgram, SpellsProgram};
ghost use Rattle.smv_parse.specs.TextReading.{modules_of};

use crate::faults::{fault_of, halt_fault};
use smv_formula_reader::group_flags;
use smv_grammar::{DEEPEST, ParseFault};
use smv_program_reader::program;
use smv_reader::{Halt, Reader};
use smv_token::{ScannedText, Token, scan};
use smv_tree::Program;
use std::alloc::{AllocError, Global};

/// The program of all tokens.
#[tactic(auto, using(smv_formula_reader::proofs::GroupFlags::all_flagged), unfolding(crate::specs::TextReading::modules_of))]
fn whole_program(alloc: Global, tokens: &[Token]) -> Result<Program, Halt>
    ensures { Reads bodies result (modules_of tokens.now) }
{
    let flags = group_flags(alloc, tokens)?;
    let reader = Reader {
        alloc,
        room: DEEPEST,
    };
    let (program, rest) = program(reader, flags.as_slice(), tokens)?;
    if !rest.is_empty() {
        return Err(Halt::Wrong(rest.len()));
    }
    Ok(program)
}

/// The verdict on the tokens of a text.
#[tactic(auto, using(crate::proofs::TextVerdicts::program_within, crate::proofs::TextVerdicts::program_deep))]
fn judge(alloc: Global, text: &ScannedText) -> Result<Program, ParseFault>
    ensures { Answers bodies result (verdict text.now.tokens.items text.now.stop text.now.end (modules_of text.now.tokens.items)) }
{
    match whole_program(alloc, text.tokens.as_slice()) {
        Ok(program) => match text.stop {
            None => Ok(program),
            Some((place, flaw)) => Err(fault_of(alloc, place, flaw)),
        },
        Err(halt) => Err(halt_fault(alloc, text, halt)),
    }
}

/// The verdict on a text.
fn read_text(alloc: Global, bytes: &[u8]) -> Result<Program, ParseFault>
    ensures { Answers bodies result (judged_by modules_of bytes.now) }
{
    let text = scan(alloc, bytes)?;
    judge(alloc, &text)
}

/// The program that a text spells.
///
/// # Errors
///
/// The fault that the text shows first, `NoMemory` where memory is refused. A place is that of the
/// first byte of a token, or the one behind the last byte of the text.
pub fn parse_model(alloc: Global, bytes: &[u8]) -> Result<Program, ParseFault>
    requires { length bytes.now ≤ 4194304 }
    // what is read is spelled so
    ensures found { IfOk result (λ p. SpellsProgram bytes.now (bodies p)) }
    // what is spelled so is read, unless memory runs out
    ensures only { (x : List Body) → SpellsProgram bytes.now x → Answers bodies result (Ok x) }
    // what is refused has that fault
    ensures refused { IfErr result (λ f. Unless f (ExplainsProgram bytes.now f)) }
    // what has a fault is refused for it, unless memory runs out
    ensures cause { (f : ParseFault) → ExplainsProgram bytes.now f → Answers bodies result (Err f) }
{
    read_text(alloc, bytes)
}
