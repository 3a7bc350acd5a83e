ghost use Rattle.std.specs.Prelude.{◌≡◌, ◌∷◌, []};
ghost use Rattle.smv_tree.specs.Models.{shape_of};
ghost use Rattle.smv_token.specs.declared.token.Lexeme.TheVariants.{Mark as Marked};
ghost use Rattle.smv_reader.specs.Halts.{Reads};
ghost use Rattle.smv_rules.specs.Programs.{width, a_type, an_elem, enumeration, interval, more_elems, sized};
ghost use Rattle.smv_rules.specs.Running.{run};
ghost use Rattle.smv_reader.specs.Turns.{seen_rest, turn};

use smv_grammar::integer;
use smv_reader::{Halt, Reader};
use smv_token::{Lexeme, Mark, Token};
use smv_tree::{Place, Ty, TypeSyntax, Value, Values};

/// The width of a word; what is above 255 stands as that.
fn width(value: u64) -> u8
    ensures { result ≡ width value }
{
    if value < 255 { value as u8 } else { 255 }
}

/// An element of an enumeration: a name or an integer.
#[tactic(auto, unfolding(smv_rules::specs::Running::run, smv_rules::specs::Keys::sees))]
fn element(reader: Reader, tokens: &[Token]) -> Result<(Value, &[Token]), Halt>
    ensures { Reads (λ x. (x.0, x.1.now)) result (run reader.room an_elem tokens.now) }
{
    let [first, rest @ ..] = tokens else {
        return Err(Halt::Wrong(0));
    };
    match &first.lexeme {
        Lexeme::Name(name) => Ok((Value::Sym(name.copy(reader.alloc)?), rest)),
        _ => {
            let (number, rest) = reader.integer(tokens)?;
            Ok((Value::Int(number), rest))
        }
    }
}

/// One more element behind a comma, if a comma stands there.
#[tactic(auto, unfolding(smv_rules::specs::Running::run, smv_rules::specs::Keys::sees, smv_reader::specs::Turns::turn))]
fn next_element<'a>(
    reader: Reader,
    elements: &mut Vec<Value>,
    tokens: &'a [Token],
) -> Result<Option<&'a [Token]>, Halt>
    ensures { Reads (λ x. (elements.new.items, seen_rest x)) result (turn reader.room (more_elems elements.old.items) tokens.now) }
{
    let (comma, rest) = reader.eat(Mark::Comma, tokens)?;
    if !comma {
        return Ok(None);
    }
    let (element, rest) = element(reader, rest)?;
    elements.push(element)?;
    Ok(Some(rest))
}

/// The elements behind the first, each behind a comma.
#[tactic(auto, using(smv_reader::proofs::Loops::loop_stops, smv_reader::proofs::Loops::loop_goes, smv_reader::proofs::Loops::loop_less))]
fn more_elements(
    reader: Reader,
    first: Value,
    tokens: &[Token],
) -> Result<(Vec<Value>, &[Token]), Halt>
    ensures { Reads (λ x. (x.0.items, x.1.now)) result (run reader.room (more_elems (first ∷ [])) tokens.now) }
{
    let mut elements = vec![in reader.alloc; first]?;
    let mut rest = tokens;
    'elements: while let Some(behind) = next_element(reader, &mut elements, rest)? {
        rest = behind;
    }
    Ok((elements, rest))
}

/// An enumeration, behind its bracket.
#[tactic(auto, unfolding(smv_rules::specs::Running::run))]
fn enumeration(
    reader: Reader,
    place: Place,
    tokens: &[Token],
) -> Result<(TypeSyntax, &[Token]), Halt>
    ensures { Reads (λ x. (shape_of x.0, x.1.now)) result (run reader.room (enumeration place) tokens.now) }
{
    let (first, rest) = element(reader, tokens)?;
    let (elements, rest) = more_elements(reader, first, rest)?;
    let (_, rest) = reader.expect(Mark::CloseCurly, rest)?;
    let ty = Ty::Enum(Values::from_vec(elements));
    Ok((TypeSyntax::Plain(ty, place), rest))
}

/// A range, behind its least value.
#[tactic(auto, unfolding(smv_rules::specs::Running::run))]
fn interval(
    reader: Reader,
    place: Place,
    minus: bool,
    low: u64,
    tokens: &[Token],
) -> Result<(TypeSyntax, &[Token]), Halt>
    ensures { Reads (λ x. (shape_of x.0, x.1.now)) result (run reader.room (interval place minus low) tokens.now) }
{
    let (_, rest) = reader.expect(Mark::Dots, tokens)?;
    let (high, rest) = reader.integer(rest)?;
    let ty = Ty::Range(integer(minus, low), high);
    Ok((TypeSyntax::Plain(ty, place), rest))
}

/// A word, behind the reserved word.
#[tactic(auto, unfolding(smv_rules::specs::Running::run))]
fn sized(
    reader: Reader,
    place: Place,
    signed: bool,
    tokens: &[Token],
) -> Result<(TypeSyntax, &[Token]), Halt>
    ensures { Reads (λ x. (shape_of x.0, x.1.now)) result (run reader.room (sized place signed) tokens.now) }
{
    let (_, rest) = reader.expect(Mark::OpenSquare, tokens)?;
    let (value, rest) = reader.number(rest)?;
    let (_, rest) = reader.expect(Mark::CloseSquare, rest)?;
    let ty = Ty::Word(signed, width(value));
    Ok((TypeSyntax::Plain(ty, place), rest))
}

/// A type that a mark begins, behind the mark.
#[tactic(auto, unfolding(smv_rules::specs::Running::run, smv_rules::specs::Keys::sees, smv_grammar::specs::IsMark::same_mark))]
fn type_behind<'a>(
    reader: Reader,
    first: &Token,
    mark: Mark,
    tokens: &'a [Token],
) -> Result<(TypeSyntax, &'a [Token]), Halt>
    requires { first.now.lexeme ≡ Marked mark }
    ensures { Reads (λ x. (shape_of x.0, x.1.now)) result (run reader.room a_type (first.now ∷ tokens.now)) }
{
    let place = first.place;
    match mark {
        Mark::Boolean => Ok((TypeSyntax::Plain(Ty::Bool, place), tokens)),
        Mark::OpenCurly => enumeration(reader, place, tokens),
        Mark::Minus => {
            let (low, rest) = reader.number(tokens)?;
            interval(reader, place, true, low, rest)
        }
        Mark::WordType => sized(reader, place, false, tokens),
        Mark::Unsigned => {
            let (_, rest) = reader.expect(Mark::WordType, tokens)?;
            sized(reader, place, false, rest)
        }
        Mark::Signed => {
            let (_, rest) = reader.expect(Mark::WordType, tokens)?;
            sized(reader, place, true, rest)
        }
        _ => Err(Halt::Wrong(tokens.len() + 1)),
    }
}

/// A type: `boolean`, an enumeration, a range, or a word.
#[tactic(auto, unfolding(smv_rules::specs::Running::run, smv_rules::specs::Keys::sees))]
pub fn plain_type(reader: Reader, tokens: &[Token]) -> Result<(TypeSyntax, &[Token]), Halt>
    ensures { Reads (λ x. (shape_of x.0, x.1.now)) result (run reader.room a_type tokens.now) }
{
    let [first, rest @ ..] = tokens else {
        return Err(Halt::Wrong(0));
    };
    match first.lexeme {
        Lexeme::Mark(mark) => type_behind(reader, first, mark, rest),
        Lexeme::Number(low) => interval(reader, first.place, false, low, rest),
        _ => Err(Halt::Wrong(tokens.len())),
    }
}
