ghost use Rattle.std.specs.Prelude.{◌≡◌, ◌≤◌, max, IfSome};
ghost use Rattle.smv_tree.specs.Models.{both, formula_claim};
ghost use Rattle.smv_reader.specs.Halts.{Halts, Reads};
ghost use Rattle.smv_formula_reader.specs.Flags.{Flagged};
ghost use Rattle.smv_rules.specs.Formulas.{an_atom, connected, deeper, enclosed, formula_level, opened, operand, prefixed, side};
ghost use Rattle.smv_rules.specs.Keys.{formula_operand};
ghost use Rattle.smv_rules.specs.Rules.{must, too_deep};
ghost use Rattle.smv_rules.specs.Running.{run};
ghost use Rattle.smv_rules.specs.Sorts.{a_formula};
ghost use Rattle.smv_formula_reader.specs.FormulaClimbing.{connective_at, connective_seen};
ghost use Rattle.smv_formula_reader.specs.FormulaViews.{applied, formula_of, found_formula};

use crate::groups::{Prefix, Start, start_of};
use smv_expression_reader::level;
use smv_grammar::{ATOMIC, DEEPEST, OUTERMOST, joining_by};
use smv_reader::{Halt, Reader, begins_operand};
use smv_token::{Lexeme, Mark, Token};
use smv_tree::{FormOp, Formula};

/// A formula with its depth.
#[derive(Debug, Drop)]
pub struct ParsedFormula {
    pub formula: Formula,
    pub depth: u32,
}

impl Prefix {
    /// The formula with this operator before it.
    fn of(self, operand: Box<Formula>) -> Formula
        ensures { formula_claim result ≡ applied self (formula_claim operand.value) }
    {
        match self {
            Prefix::Not => Formula::Not(operand),
            Prefix::Next => Formula::Next(operand),
            Prefix::Always => Formula::Always(operand),
            Prefix::Eventually => Formula::Eventually(operand),
        }
    }
}

/// An operand with the operator behind it, while the right operand is read: the level of the right
/// operand, and the level that is wanted of the formula of both.
#[derive(Debug, Drop)]
struct WaitingFormula {
    left: ParsedFormula,
    op: FormOp,
    tighter: u32,
    loosest: u32,
}

/// The operator at the front that is looser than the one level and no looser than the other: its level,
/// itself, and the tokens behind it.
#[tactic(auto, unfolding(crate::specs::FormulaClimbing::connective_at))]
fn connective_at(reached: u32, wanted: u32, tokens: &[Token]) -> Option<(u32, FormOp, &[Token])>
    ensures value { connective_seen result ≡ connective_at reached wanted tokens.now }
    ensures least { IfSome result (λ x. 2 ≤ x.0) }
{
    let [first, rest @ ..] = tokens else {
        return None;
    };
    let Lexeme::Mark(mark) = first.lexeme else {
        return None;
    };
    let (own, op) = joining_by(mark)?;
    if wanted < own {
        return None;
    }
    if reached < own {
        Some((own, op, rest))
    } else {
        None
    }
}

/// A formula one deeper than its deepest part, if it may be so deep.
#[tactic(auto, unfolding(smv_rules::specs::Running::run))]
fn deeper_formula(
    reader: Reader,
    formula: Formula,
    depth: u32,
    rest: &[Token],
) -> Result<(ParsedFormula, &[Token]), Halt>
    ensures { Reads found_formula result (run reader.room (deeper (formula_claim formula) depth) rest.now) }
{
    if depth < DEEPEST {
        let depth = depth + 1;
        Ok((ParsedFormula { formula, depth }, rest))
    } else {
        Err(Halt::Deep(rest.len()))
    }
}

/// Two operands and the operator between them.
#[inline(never)]
fn both(
    reader: Reader,
    left: ParsedFormula,
    op: FormOp,
    right: ParsedFormula,
    rest: &[Token],
) -> Result<(ParsedFormula, &[Token]), Halt>
    ensures { Reads found_formula result (run reader.room (deeper (both op (formula_claim left.formula) (formula_claim right.formula)) (max left.depth right.depth)) rest.now) }
{
    let depth = left.depth.max(right.depth);
    let left = Box::new(reader.alloc, left.formula)?;
    let right = Box::new(reader.alloc, right.formula)?;
    deeper_formula(reader, Formula::Two(op, left, right), depth, rest)
}

/// An atom: an expression of the level of atoms.
#[tactic(auto, unfolding(smv_rules::specs::Running::run))]
#[inline(never)]
fn atom(reader: Reader, tokens: &[Token]) -> Result<(ParsedFormula, &[Token]), Halt>
    ensures { Reads found_formula result (run reader.room an_atom tokens.now) }
{
    let (part, rest) = level(reader, ATOMIC, tokens)?;
    let formula = Formula::Atom(part.expr);
    let depth = part.depth;
    Ok((ParsedFormula { formula, depth }, rest))
}

/// Where a formula that is open from its own first token has no room.
#[tactic(auto, unfolding(smv_rules::specs::Running::run, smv_rules::specs::Keys::sees))]
fn formula_too_deep(reader: Reader, flags: &[bool], tokens: &[Token]) -> Halt
    requires { Flagged flags.now tokens.now }
    ensures { Halts result (run 0 (must a_formula formula_operand (λ p. too_deep a_formula)) tokens.now) }
{
    let [first, rest @ ..] = tokens else {
        return Halt::Wrong(0);
    };
    match start_of(flags, tokens) {
        Start::Before(_) => Halt::Deep(rest.len()),
        _ if begins_operand(&first.lexeme) => Halt::Deep(rest.len()),
        _ => Halt::Wrong(tokens.len()),
    }
}

/// A formula of a level that a token before it opened.
#[cycle(formula)]
#[tactic(auto, using(smv_reader::proofs::Parts::part_inner), unfolding(smv_rules::specs::Running::run, smv_rules::specs::Table::table))]
fn opened_formula<'a>(
    reader: Reader,
    flags: &[bool],
    loosest: u32,
    tokens: &'a [Token],
) -> Result<(ParsedFormula, &'a [Token]), Halt>
    requires flagged { Flagged flags.now tokens.now }
    ensures { Reads found_formula result (run reader.room (opened loosest) tokens.now) }
{
    if reader.room < 1 {
        return Err(Halt::Deep(tokens.len()));
    }
    let room = reader.room - 1;
    let inner = Reader {
        alloc: reader.alloc,
        room,
    };
    formula(inner, flags, loosest, tokens)
}

/// A formula that is open from its own first token.
#[cycle(formula)]
#[tactic(auto, using(smv_reader::proofs::Parts::part_inner), unfolding(smv_rules::specs::Running::run, smv_rules::specs::Table::table))]
fn side_formula<'a>(
    reader: Reader,
    flags: &[bool],
    tokens: &'a [Token],
) -> Result<(ParsedFormula, &'a [Token]), Halt>
    requires flagged { Flagged flags.now tokens.now }
    ensures { Reads found_formula result (run reader.room side tokens.now) }
{
    if reader.room < 1 {
        return Err(formula_too_deep(reader, flags, tokens));
    }
    let room = reader.room - 1;
    let inner = Reader {
        alloc: reader.alloc,
        room,
    };
    formula(inner, flags, OUTERMOST, tokens)
}

/// A formula with an operator before it, behind the operator.
#[cycle(formula)]
#[tactic(auto, unfolding(smv_rules::specs::Running::run))]
fn prefixed_formula<'a>(
    reader: Reader,
    flags: &[bool],
    prefix: Prefix,
    tokens: &'a [Token],
) -> Result<(ParsedFormula, &'a [Token]), Halt>
    requires flagged { Flagged flags.now tokens.now }
    ensures { Reads found_formula result (run reader.room (prefixed (applied prefix)) tokens.now) }
{
    let (part, rest) = opened_formula(reader, flags, 1, tokens)?;
    let depth = part.depth;
    let formula = prefix.of(Box::new(reader.alloc, part.formula)?);
    deeper_formula(reader, formula, depth, rest)
}

/// A formula and the `)` behind it.
#[cycle(formula)]
#[tactic(auto, unfolding(smv_rules::specs::Running::run))]
fn enclosed_formula<'a>(
    reader: Reader,
    flags: &[bool],
    tokens: &'a [Token],
) -> Result<(ParsedFormula, &'a [Token]), Halt>
    requires flagged { Flagged flags.now tokens.now }
    ensures { Reads found_formula result (run reader.room enclosed tokens.now) }
{
    let (part, rest) = opened_formula(reader, flags, OUTERMOST, tokens)?;
    let (_, rest) = reader.expect(Mark::CloseRound, rest)?;
    deeper_formula(reader, part.formula, part.depth, rest)
}

/// An operand of a formula.
#[cycle(formula)]
#[tactic(auto, using(crate::proofs::GroupFlags::flagged_behind), unfolding(smv_rules::specs::Running::run, smv_rules::specs::Keys::sees))]
fn formula_operand<'a>(
    reader: Reader,
    flags: &[bool],
    tokens: &'a [Token],
) -> Result<(ParsedFormula, &'a [Token]), Halt>
    requires flagged { Flagged flags.now tokens.now }
    ensures { Reads found_formula result (run reader.room operand tokens.now) }
{
    let [_, rest @ ..] = tokens else {
        return atom(reader, tokens);
    };
    match start_of(flags, tokens) {
        Start::Before(prefix) => prefixed_formula(reader, flags, prefix, rest),
        Start::Bracket => enclosed_formula(reader, flags, rest),
        Start::Atom => atom(reader, tokens),
    }
}

/// The right side of an implication, behind the arrow.
#[cycle(formula)]
#[tactic(auto, unfolding(smv_rules::specs::Running::run))]
fn implying_formula<'a>(
    reader: Reader,
    flags: &[bool],
    left: ParsedFormula,
    op: FormOp,
    tokens: &'a [Token],
) -> Result<(ParsedFormula, &'a [Token]), Halt>
    requires flagged { Flagged flags.now tokens.now }
    ensures { Reads found_formula result (run reader.room (connected side (formula_of left) op) tokens.now) }
{
    let (right, rest) = side_formula(reader, flags, tokens)?;
    both(reader, left, op, right, rest)
}

/// A formula of a level or of a tighter one. The flags tell of each rest of the tokens whether it
/// begins a group that holds a word that formulas alone have. Operands wait on the heap for the
/// right operand of their operator, so that only nestings recur.
#[cycle(formula)]
pub fn formula<'a>(
    reader: Reader,
    flags: &[bool],
    loosest: u32,
    tokens: &'a [Token],
) -> Result<(ParsedFormula, &'a [Token]), Halt>
    requires flagged { Flagged flags.now tokens.now }
    ensures { Reads found_formula result (run reader.room (formula_level loosest) tokens.now) }
{
    let mut waiting: Vec<WaitingFormula> = Vec::new(reader.alloc);
    let (mut reached, mut wanted) = (1, loosest);
    let (mut left, mut rest) = formula_operand(reader, flags, tokens)?;
    'turns: loop {
        let Some((own, op, behind)) = connective_at(reached, wanted, rest) else {
            let Some(outer) = waiting.pop() else {
                return Ok((left, rest));
            };
            (reached, wanted) = (outer.tighter, outer.loosest);
            (left, rest) = both(reader, outer.left, outer.op, left, rest)?;
            continue 'turns;
        };
        if own == OUTERMOST {
            (left, rest) = implying_formula(reader, flags, left, op, behind)?;
            reached = own;
            continue 'turns;
        }
        let tighter = own - 1;
        let loosest = wanted;
        waiting.push(WaitingFormula {
            left,
            op,
            tighter,
            loosest,
        })?;
        (reached, wanted) = (1, tighter);
        (left, rest) = formula_operand(reader, flags, behind)?;
    }
}
