ghost use Rattle.std.specs.Prelude.{◌≤◌, IfOk, length};
ghost use Rattle.smv_tree.specs.Trees.{expr_tree, next, one};
ghost use Rattle.smv_reader.specs.Halts.{Reads};
ghost use Rattle.smv_rules.specs.Expressions.{applied, branch, choosing, counted, enclosed, implying, level, listed, listed_branches, more_branches, more_operands, nested, no_branches, opened, operands, prefixed, primary, primary_from, side, widened};
ghost use Rattle.smv_rules.specs.Rules.{inside, part, too_deep};
ghost use Rattle.smv_rules.specs.Sorts.{an_expression};
ghost use Rattle.smv_rules.specs.Running.{run};
ghost use Rattle.smv_expression_reader.specs.Climbing.{Leads, closed_at, so_far, up};
ghost use Rattle.smv_reader.specs.Turns.{seen_rest, turn};
ghost use Rattle.smv_reader.specs.Views.{branches_of, expression_of, found, opener_of, opening_of, operands_of};

use crate::operators::{Waiting, infix_at, next_level, prefix_at};
use smv_grammar::{LOOSEST, capped};
use smv_reader::{
    Halt, Opener, Opening, Parsed, ParsedCase, ParsedList, Reader, begins_with, opening_by,
};
use smv_token::{Lexeme, Mark, Token};
use smv_tree::{Expr, Op1, Op2, Place};

/// An expression of a level that a token before it opened.
#[cycle(expression)]
#[tactic(auto, using(smv_reader::proofs::Parts::part_inner), unfolding(smv_rules::specs::Running::run, smv_rules::specs::Table::table))]
fn opened(reader: Reader, loosest: u32, tokens: &[Token]) -> Result<(Parsed, &[Token]), Halt>
    requires least { 2 ≤ loosest }
    requires most { loosest ≤ 15 }
    ensures { Reads found result (run reader.room (opened loosest) tokens.now) }
{
    if reader.room < 1 {
        return Err(Halt::Deep(tokens.len()));
    }
    let room = reader.room - 1;
    let inner = Reader {
        alloc: reader.alloc,
        room,
    };
    level(inner, loosest, tokens)
}

/// An expression of a level that is open from its own first token.
#[cycle(expression)]
#[tactic(auto, using(smv_reader::proofs::Parts::part_inner), unfolding(smv_rules::specs::Running::run, smv_rules::specs::Table::table))]
fn side(reader: Reader, loosest: u32, tokens: &[Token]) -> Result<(Parsed, &[Token]), Halt>
    requires least { 2 ≤ loosest }
    requires most { loosest ≤ 15 }
    ensures { Reads found result (run reader.room (side loosest) tokens.now) }
{
    if reader.room < 1 {
        return Err(reader.side_too_deep(tokens));
    }
    let room = reader.room - 1;
    let inner = Reader {
        alloc: reader.alloc,
        room,
    };
    level(inner, loosest, tokens)
}

/// An operator before an operand of its own level, behind the operator.
#[cycle(expression)]
#[tactic(auto, unfolding(smv_rules::specs::Running::run))]
fn prefixed(
    reader: Reader,
    place: Place,
    op: Op1,
    level: u32,
    tokens: &[Token],
) -> Result<(Parsed, &[Token]), Halt>
    requires least { 2 ≤ level }
    requires most { level ≤ 15 }
    ensures { Reads found result (run reader.room (prefixed place op level) tokens.now) }
{
    let (part, rest) = opened(reader, level, tokens)?;
    let depth = part.depth;
    let part = Box::new(reader.alloc, part.expr)?;
    reader.deeper(Expr::One(place, op, part), depth, rest)
}

/// An expression and the `)` behind it.
#[cycle(expression)]
#[tactic(auto, unfolding(smv_rules::specs::Running::run))]
fn enclosed(reader: Reader, tokens: &[Token]) -> Result<(Parsed, &[Token]), Halt>
    ensures { Reads found result (run reader.room enclosed tokens.now) }
{
    let (part, rest) = level(reader, LOOSEST, tokens)?;
    let (_, rest) = reader.expect(Mark::CloseRound, rest)?;
    reader.bracketed(part, rest)
}

/// An expression in brackets as the operand of a function.
#[cycle(expression)]
#[tactic(auto, unfolding(smv_rules::specs::Running::run))]
fn function(
    reader: Reader,
    place: Place,
    op: Op1,
    tokens: &[Token],
) -> Result<(Parsed, &[Token]), Halt>
    ensures { Reads found result (run reader.room (applied (one place op)) tokens.now) }
{
    let (_, rest) = reader.expect(Mark::OpenRound, tokens)?;
    let (part, rest) = level(reader, LOOSEST, rest)?;
    let (_, rest) = reader.expect(Mark::CloseRound, rest)?;
    let depth = part.depth;
    let part = Box::new(reader.alloc, part.expr)?;
    reader.deeper(Expr::One(place, op, part), depth, rest)
}

/// The next value of an expression in brackets.
#[cycle(expression)]
#[tactic(auto, unfolding(smv_rules::specs::Running::run))]
fn next_value(reader: Reader, place: Place, tokens: &[Token]) -> Result<(Parsed, &[Token]), Halt>
    ensures { Reads found result (run reader.room (applied (next place)) tokens.now) }
{
    let (_, rest) = reader.expect(Mark::OpenRound, tokens)?;
    let (part, rest) = level(reader, LOOSEST, rest)?;
    let (_, rest) = reader.expect(Mark::CloseRound, rest)?;
    let depth = part.depth;
    let part = Box::new(reader.alloc, part.expr)?;
    reader.deeper(Expr::Next(place, part), depth, rest)
}

/// An expression and a width in brackets.
#[cycle(expression)]
#[tactic(auto, unfolding(smv_rules::specs::Running::run))]
fn widened(
    reader: Reader,
    place: Place,
    resize: bool,
    tokens: &[Token],
) -> Result<(Parsed, &[Token]), Halt>
    ensures { Reads found result (run reader.room (widened place resize) tokens.now) }
{
    let (_, rest) = reader.expect(Mark::OpenRound, tokens)?;
    let (part, rest) = level(reader, LOOSEST, rest)?;
    let (_, rest) = reader.expect(Mark::Comma, rest)?;
    let (width, rest) = reader.number(rest)?;
    let (_, rest) = reader.expect(Mark::CloseRound, rest)?;
    let depth = part.depth;
    let part = Box::new(reader.alloc, part.expr)?;
    reader.deeper(Expr::Widen(place, resize, part, capped(width)), depth, rest)
}

/// One more operand behind a comma, if a comma stands there.
#[cycle(expression)]
#[tactic(auto, unfolding(smv_rules::specs::Running::run, smv_rules::specs::Keys::sees, smv_reader::specs::Turns::turn))]
fn next_operand<'a>(
    reader: Reader,
    operands: &mut ParsedList,
    tokens: &'a [Token],
) -> Result<Option<&'a [Token]>, Halt>
    ensures { Reads (λ x. (operands_of operands.new, seen_rest x)) result (turn reader.room (more_operands (operands_of operands.old)) tokens.now) }
{
    let (comma, rest) = reader.eat(Mark::Comma, tokens)?;
    if !comma {
        return Ok(None);
    }
    let (part, rest) = level(reader, LOOSEST, rest)?;
    operands.push(part)?;
    Ok(Some(rest))
}

/// Further operands, each behind a comma.
#[cycle(expression)]
#[tactic(auto, using(smv_reader::proofs::Loops::loop_stops, smv_reader::proofs::Loops::loop_goes, smv_reader::proofs::Loops::loop_less))]
fn more_operands(
    reader: Reader,
    before: ParsedList,
    tokens: &[Token],
) -> Result<(ParsedList, &[Token]), Halt>
    ensures { Reads (λ x. (operands_of x.0, x.1.now)) result (run reader.room (more_operands (operands_of before)) tokens.now) }
{
    let (mut operands, mut rest) = (before, tokens);
    'operands: while let Some(behind) = next_operand(reader, &mut operands, rest)? {
        rest = behind;
    }
    Ok((operands, rest))
}

/// Operands.
#[cycle(expression)]
#[tactic(auto, unfolding(smv_rules::specs::Running::run))]
pub fn operands(reader: Reader, tokens: &[Token]) -> Result<(ParsedList, &[Token]), Halt>
    ensures { Reads (λ x. (operands_of x.0, x.1.now)) result (run reader.room operands tokens.now) }
{
    let (part, rest) = level(reader, LOOSEST, tokens)?;
    let first = ParsedList::one(reader.alloc, part)?;
    more_operands(reader, first, rest)
}

/// The operands of `count`, in brackets.
#[cycle(expression)]
#[tactic(auto, unfolding(smv_rules::specs::Running::run))]
fn counted(reader: Reader, place: Place, tokens: &[Token]) -> Result<(Parsed, &[Token]), Halt>
    ensures { Reads found result (run reader.room (counted place) tokens.now) }
{
    let (_, rest) = reader.expect(Mark::OpenRound, tokens)?;
    let (operands, rest) = operands(reader, rest)?;
    let (_, rest) = reader.expect(Mark::CloseRound, rest)?;
    reader.deeper(Expr::Count(place, operands.exprs), operands.depth, rest)
}

/// The members of a set and their `}`.
#[cycle(expression)]
#[tactic(auto, unfolding(smv_rules::specs::Running::run))]
fn listed(reader: Reader, place: Place, tokens: &[Token]) -> Result<(Parsed, &[Token]), Halt>
    ensures { Reads found result (run reader.room (listed place) tokens.now) }
{
    let (operands, rest) = operands(reader, tokens)?;
    let (_, rest) = reader.expect(Mark::CloseCurly, rest)?;
    reader.deeper(Expr::Set(place, operands.exprs), operands.depth, rest)
}

/// A branch of a case, behind others.
#[cycle(expression)]
#[tactic(auto, unfolding(smv_rules::specs::Running::run))]
fn branch<'a>(
    reader: Reader,
    branches: &mut ParsedCase,
    tokens: &'a [Token],
) -> Result<&'a [Token], Halt>
    ensures { Reads (λ x. (branches_of branches.new, x.now)) result (run reader.room (branch (branches_of branches.old)) tokens.now) }
{
    let (condition, rest) = level(reader, LOOSEST, tokens)?;
    let (_, rest) = reader.expect(Mark::Colon, rest)?;
    let (value, rest) = level(reader, LOOSEST, rest)?;
    branches.push(condition, value)?;
    Ok(rest)
}

/// The first branch of a case.
#[cycle(expression)]
fn first_branch(reader: Reader, tokens: &[Token]) -> Result<(ParsedCase, &[Token]), Halt>
    ensures { Reads (λ x. (branches_of x.0, x.1.now)) result (run reader.room (branch no_branches) tokens.now) }
{
    let mut branches = ParsedCase::empty(reader.alloc);
    let rest = branch(reader, &mut branches, tokens)?;
    Ok((branches, rest))
}

/// One more branch behind a `;`, if the end of the case does not stand behind it.
#[cycle(expression)]
#[tactic(auto, unfolding(smv_rules::specs::Running::run, smv_rules::specs::Keys::sees, smv_reader::specs::Turns::turn))]
fn next_branch<'a>(
    reader: Reader,
    branches: &mut ParsedCase,
    tokens: &'a [Token],
) -> Result<Option<&'a [Token]>, Halt>
    ensures { Reads (λ x. (branches_of branches.new, seen_rest x)) result (turn reader.room (more_branches (branches_of branches.old)) tokens.now) }
{
    let (ends, rest) = reader.eat(Mark::Semicolon, tokens)?;
    if !ends || begins_with(Mark::Esac, rest) {
        return Ok(None);
    }
    let rest = branch(reader, branches, rest)?;
    Ok(Some(rest))
}

/// Further branches.
#[cycle(expression)]
#[tactic(auto, using(smv_reader::proofs::Loops::loop_stops, smv_reader::proofs::Loops::loop_goes, smv_reader::proofs::Loops::loop_less))]
fn more_branches(
    reader: Reader,
    before: ParsedCase,
    tokens: &[Token],
) -> Result<(ParsedCase, &[Token]), Halt>
    ensures { Reads (λ x. (branches_of x.0, x.1.now)) result (run reader.room (more_branches (branches_of before)) tokens.now) }
{
    let (mut branches, mut rest) = (before, tokens);
    'branches: while let Some(behind) = next_branch(reader, &mut branches, rest)? {
        rest = behind;
    }
    Ok((branches, rest))
}

/// The branches of a case and its end.
#[cycle(expression)]
#[tactic(auto, unfolding(smv_rules::specs::Running::run))]
fn cases(reader: Reader, place: Place, tokens: &[Token]) -> Result<(Parsed, &[Token]), Halt>
    ensures { Reads found result (run reader.room (listed_branches place) tokens.now) }
{
    let (first, rest) = first_branch(reader, tokens)?;
    let (branches, rest) = more_branches(reader, first, rest)?;
    let (_, rest) = reader.last_semicolon(rest)?;
    let (_, rest) = reader.expect(Mark::Esac, rest)?;
    reader.deeper(Expr::Case(place, branches.branches), branches.depth, rest)
}

/// What stands behind a token that opens a nesting.
#[cycle(expression)]
fn nested(
    reader: Reader,
    opener: Opener,
    place: Place,
    tokens: &[Token],
) -> Result<(Parsed, &[Token]), Halt>
    ensures { Reads found result (run reader.room (nested (opener_of opener) place) tokens.now) }
{
    match opener {
        Opener::Round => enclosed(reader, tokens),
        Opener::Set => listed(reader, place, tokens),
        Opener::Branches => cases(reader, place, tokens),
        Opener::Count => counted(reader, place, tokens),
        Opener::Next => next_value(reader, place, tokens),
        Opener::Function(op) => function(reader, place, op, tokens),
        Opener::Widen(resize) => widened(reader, place, resize, tokens),
        Opener::Const(signed) => reader.constant(place, signed, tokens),
    }
}

/// What a token opens, behind it, where there is room for one more nesting.
#[cycle(expression)]
#[tactic(auto, using(smv_reader::proofs::Parts::part_inner), unfolding(smv_rules::specs::Running::run, smv_rules::specs::Table::table))]
fn inside(
    reader: Reader,
    opener: Opener,
    place: Place,
    tokens: &[Token],
) -> Result<(Parsed, &[Token]), Halt>
    ensures { Reads found result (run reader.room (part an_expression (inside (opener_of opener) place) (too_deep an_expression)) tokens.now) }
{
    if reader.room < 1 {
        return Err(Halt::Deep(tokens.len()));
    }
    let room = reader.room - 1;
    let inner = Reader {
        alloc: reader.alloc,
        room,
    };
    nested(inner, opener, place, tokens)
}

/// A primary expression that a mark begins, behind the mark.
#[cycle(expression)]
#[tactic(auto, unfolding(smv_rules::specs::Running::run))]
fn begun(
    reader: Reader,
    opening: Opening,
    place: Place,
    tokens: &[Token],
) -> Result<(Parsed, &[Token]), Halt>
    ensures { Reads found result (run reader.room (primary_from (opening_of opening) place) tokens.now) }
{
    match opening {
        Opening::Truth(truth) => Ok((Parsed::single(Expr::Truth(place, truth)), tokens)),
        Opening::SelfPath => reader.path(place, b"self".as_slice(), tokens),
        Opening::Below => reader.below(place, tokens),
        Opening::Opens(opener) => inside(reader, opener, place, tokens),
    }
}

/// A primary expression.
#[cycle(expression)]
#[tactic(auto, unfolding(smv_rules::specs::Running::run, smv_rules::specs::Keys::sees))]
fn primary(reader: Reader, tokens: &[Token]) -> Result<(Parsed, &[Token]), Halt>
    ensures { Reads found result (run reader.room primary tokens.now) }
{
    let [first, rest @ ..] = tokens else {
        return Err(Halt::Wrong(0));
    };
    let place = first.place;
    match &first.lexeme {
        Lexeme::Name(name) => reader.path(place, name.as_slice(), rest),
        Lexeme::Number(number) => reader.digits(place, *number, rest),
        Lexeme::Word(word) => Ok((Parsed::single(Expr::Word(place, *word)), rest)),
        Lexeme::Mark(mark) => match opening_by(*mark) {
            Some(opening) => begun(reader, opening, place, rest),
            None => Err(Halt::Wrong(tokens.len())),
        },
    }
}

/// The first operand of an expression of a level, behind its own level.
#[cycle(expression)]
fn operand(reader: Reader, loosest: u32, tokens: &[Token]) -> Result<(u32, Parsed, &[Token]), Halt>
    requires least { 2 ≤ loosest }
    requires most { loosest ≤ 15 }
    ensures value { Leads (λ x. up reader.room x.0 loosest (so_far x)) result (run reader.room (level loosest) tokens.now) }
    ensures behind { IfOk result (λ x. length x.2.now ≤ length tokens.now) }
{
    let Some((own, op, place, behind)) = prefix_at(loosest, tokens) else {
        let (part, rest) = primary(reader, tokens)?;
        return Ok((0, part, rest));
    };
    let (part, rest) = prefixed(reader, place, op, own, behind)?;
    Ok((own, part, rest))
}

/// The branches of a condition, behind the `?`.
#[cycle(expression)]
#[tactic(auto, unfolding(smv_rules::specs::Running::run))]
#[inline(never)]
fn choosing(
    reader: Reader,
    condition: Parsed,
    place: Place,
    tokens: &[Token],
) -> Result<(Parsed, &[Token]), Halt>
    ensures { Reads found result (run reader.room (choosing (expression_of condition) place) tokens.now) }
{
    let (then, rest) = side(reader, 15, tokens)?;
    let (_, rest) = reader.expect(Mark::Colon, rest)?;
    let (other, rest) = side(reader, 13, rest)?;
    let depth = condition.depth.max(then.depth.max(other.depth));
    let condition = Box::new(reader.alloc, condition.expr)?;
    let then = Box::new(reader.alloc, then.expr)?;
    let other = Box::new(reader.alloc, other.expr)?;
    reader.deeper(Expr::If(place, condition, then, other), depth, rest)
}

/// The right side of an implication, behind the arrow.
#[cycle(expression)]
#[tactic(auto, unfolding(smv_rules::specs::Running::run))]
#[inline(never)]
fn implying(
    reader: Reader,
    premise: Parsed,
    place: Place,
    tokens: &[Token],
) -> Result<(Parsed, &[Token]), Halt>
    ensures { Reads found result (run reader.room (implying (expression_of premise) place) tokens.now) }
{
    let (right, rest) = side(reader, 15, tokens)?;
    reader.joined(premise, Op2::Implies, place, right, rest)
}

/// An expression with an operator behind it that is none between operands, and the level that is
/// reached with it.
#[cycle(expression)]
#[tactic(auto, unfolding(crate::specs::Climbing::closed_at))]
fn closed(reader: Reader, left: Parsed, tokens: &[Token]) -> Result<(u32, Parsed, &[Token]), Halt>
    ensures { Reads (λ x. (x.0, so_far x)) result (closed_at reader.room (expression_of left) tokens.now) }
{
    let [first, rest @ ..] = tokens else {
        return Err(Halt::Wrong(0));
    };
    let place = first.place;
    match first.lexeme {
        Lexeme::Mark(Mark::OpenSquare) => {
            let (part, rest) = reader.selected(left, place, rest)?;
            Ok((0, part, rest))
        }
        Lexeme::Mark(Mark::Question) => {
            let (part, rest) = choosing(reader, left, place, rest)?;
            Ok((13, part, rest))
        }
        Lexeme::Mark(Mark::Arrow) => {
            let (part, rest) = implying(reader, left, place, rest)?;
            Ok((15, part, rest))
        }
        _ => Err(Halt::Wrong(tokens.len())),
    }
}

/// An expression of a level or a tighter one: an operand, and then its operators from tight to
/// loose. Operands wait on the heap for the right operand of their operator, so that only
/// nestings recur, and the stack holds 1,000 of these.
#[cycle(expression)]
pub fn level(reader: Reader, loosest: u32, tokens: &[Token]) -> Result<(Parsed, &[Token]), Halt>
    requires least { 2 ≤ loosest }
    requires most { loosest ≤ 15 }
    ensures { Reads found result (run reader.room (level loosest) tokens.now) }
{
    let mut waiting: Vec<Waiting> = Vec::new(reader.alloc);
    let mut wanted = loosest;
    let (mut reached, mut left, mut rest) = operand(reader, loosest, tokens)?;
    'turns: loop {
        let next = next_level(rest);
        if next <= reached || wanted < next {
            let Some(outer) = waiting.pop() else {
                return Ok((left, rest));
            };
            (reached, wanted) = (outer.tighter, outer.loosest);
            (left, rest) = reader.joined(outer.left, outer.op, outer.place, left, rest)?;
            continue 'turns;
        }
        let Some((own, op, place, behind)) = infix_at(rest) else {
            (reached, left, rest) = closed(reader, left, rest)?;
            continue 'turns;
        };
        let tighter = own - 1;
        let loosest = wanted;
        waiting.push(Waiting {
            left,
            op,
            place,
            tighter,
            loosest,
        })?;
        wanted = tighter;
        (reached, left, rest) = operand(reader, tighter, behind)?;
    }
}
