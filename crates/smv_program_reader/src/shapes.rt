ghost use Rattle.std.specs.Prelude.{true};
ghost use Rattle.smv_tree.specs.Models.{shape_of};
ghost use Rattle.smv_reader.specs.Halts.{Reads};
ghost use Rattle.smv_rules.specs.Programs.{a_declared, actuals, instantiated, some_actuals};
ghost use Rattle.smv_rules.specs.Running.{run};

use crate::types::plain_type;
use smv_expression_reader::operands;
use smv_reader::{Halt, Reader};
use smv_token::{Lexeme, Mark, Token};
use smv_tree::{Name, Place, TypeSyntax};

/// One or more actual parameters of an instance and their `)`.
#[tactic(auto, unfolding(smv_rules::specs::Running::run))]
fn some_actuals<'a>(
    reader: Reader,
    name: Name,
    place: Place,
    tokens: &'a [Token],
) -> Result<(TypeSyntax, &'a [Token]), Halt>
    ensures { Reads (λ x. (shape_of x.0, x.1.now)) result (run reader.room (some_actuals name place) tokens.now) }
{
    let (operands, rest) = operands(reader, tokens)?;
    let (_, rest) = reader.expect(Mark::CloseRound, rest)?;
    Ok((TypeSyntax::Instance(name, place, operands.exprs), rest))
}

/// The actual parameters of an instance and their `)`.
#[tactic(auto, unfolding(smv_rules::specs::Running::run, smv_rules::specs::Keys::sees))]
fn actuals<'a>(
    reader: Reader,
    name: Name,
    place: Place,
    tokens: &'a [Token],
) -> Result<(TypeSyntax, &'a [Token]), Halt>
    ensures { Reads (λ x. (shape_of x.0, x.1.now)) result (run reader.room (actuals name place) tokens.now) }
{
    let (empty, rest) = reader.eat(Mark::CloseRound, tokens)?;
    if empty {
        let none = Vec::new(reader.alloc);
        return Ok((TypeSyntax::Instance(name, place, none), rest));
    }
    some_actuals(reader, name, place, rest)
}

/// An instance, behind the name of its module.
#[tactic(auto, unfolding(smv_rules::specs::Running::run, smv_rules::specs::Keys::sees))]
fn instance<'a>(
    reader: Reader,
    name: Name,
    place: Place,
    tokens: &'a [Token],
) -> Result<(TypeSyntax, &'a [Token]), Halt>
    ensures { Reads (λ x. (shape_of x.0, x.1.now)) result (run reader.room (instantiated name place) tokens.now) }
{
    let (opened, rest) = reader.eat(Mark::OpenRound, tokens)?;
    if opened {
        return actuals(reader, name, place, rest);
    }
    let none = Vec::new(reader.alloc);
    Ok((TypeSyntax::Instance(name, place, none), rest))
}

/// A type, or an instance.
#[tactic(auto, unfolding(smv_rules::specs::Running::run, smv_rules::specs::Keys::sees))]
fn shape(reader: Reader, tokens: &[Token]) -> Result<(TypeSyntax, &[Token]), Halt>
    ensures { Reads (λ x. (shape_of x.0, x.1.now)) result (run reader.room (a_declared true) tokens.now) }
{
    let [first, rest @ ..] = tokens else {
        return plain_type(reader, tokens);
    };
    match &first.lexeme {
        Lexeme::Name(name) => instance(reader, name.copy(reader.alloc)?, first.place, rest),
        _ => plain_type(reader, tokens),
    }
}

/// A type, or an instance where one may be declared.
pub fn declared(
    reader: Reader,
    instances: bool,
    tokens: &[Token],
) -> Result<(TypeSyntax, &[Token]), Halt>
    ensures { Reads (λ x. (shape_of x.0, x.1.now)) result (run reader.room (a_declared instances) tokens.now) }
{
    if instances {
        return shape(reader, tokens);
    }
    plain_type(reader, tokens)
}
