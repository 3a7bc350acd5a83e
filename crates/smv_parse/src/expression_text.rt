ghost use Rattle.std.specs.Prelude.{IfErr, IfOk, Ok, Err};
ghost use Rattle.smv_tree.specs.Trees.{Tree, expr_tree};
ghost use Rattle.smv_reader.specs.Halts.{Reads};
ghost use Rattle.smv_rules.specs.Verdicts.{Answers, Unless, judged_by, verdict};
ghost use Rattle.smv_rules.specs.PartTexts.{ExplainsExpr, SpellsExpr};
ghost use Rattle.smv_parse.specs.TextReading.{expression_of};

use crate::faults::{fault_of, halt_fault};
use smv_expression_reader::level;
use smv_grammar::{DEEPEST, LOOSEST, ParseFault};
use smv_reader::{Halt, Reader};
use smv_token::{ScannedText, Token, scan};
use smv_tree::Expr;
use std::alloc::{AllocError, Global};

/// The expression of all tokens.
#[tactic(auto, unfolding(crate::specs::TextReading::expression_of))]
fn expression(alloc: Global, tokens: &[Token]) -> Result<Expr, Halt>
    ensures { Reads expr_tree result (expression_of tokens.now) }
{
    let reader = Reader {
        alloc,
        room: DEEPEST,
    };
    let (part, rest) = level(reader, LOOSEST, tokens)?;
    if !rest.is_empty() {
        return Err(Halt::Wrong(rest.len()));
    }
    Ok(part.expr)
}

/// The verdict on the tokens of a text.
#[tactic(auto, using(crate::proofs::TextVerdicts::expression_within, crate::proofs::TextVerdicts::expression_deep))]
fn judge(alloc: Global, text: &ScannedText) -> Result<Expr, ParseFault>
    ensures { Answers expr_tree result (verdict text.now.tokens.items text.now.stop text.now.end (expression_of text.now.tokens.items)) }
{
    match expression(alloc, text.tokens.as_slice()) {
        Ok(expression) => match text.stop {
            None => Ok(expression),
            Some((place, flaw)) => Err(fault_of(alloc, place, flaw)),
        },
        Err(halt) => Err(halt_fault(alloc, text, halt)),
    }
}

/// The verdict on a text.
fn read_text(alloc: Global, bytes: &[u8]) -> Result<Expr, ParseFault>
    ensures { Answers expr_tree result (judged_by expression_of bytes.now) }
{
    let text = scan(alloc, bytes)?;
    judge(alloc, &text)
}

/// The expression that a text spells.
///
/// # Errors
///
/// The fault that the text shows first, `NoMemory` where memory is refused. A place is that of the
/// first byte of a token, or the one behind the last byte of the text.
pub fn parse_expr(alloc: Global, bytes: &[u8]) -> Result<Expr, ParseFault>
    // what is read is spelled so
    ensures found { IfOk result (λ e. SpellsExpr bytes.now (expr_tree e)) }
    // what is spelled so is read, unless memory runs out
    ensures only { (x : Tree) → SpellsExpr bytes.now x → Answers expr_tree result (Ok x) }
    // what is refused has that fault
    ensures refused { IfErr result (λ f. Unless f (ExplainsExpr bytes.now f)) }
    // what has a fault is refused for it, unless memory runs out
    ensures cause { (f : ParseFault) → ExplainsExpr bytes.now f → Answers expr_tree result (Err f) }
{
    read_text(alloc, bytes)
}
