ghost use Rattle.std.specs.Prelude.{◌≡◌, ◌∷◌, map};
ghost use Rattle.smv_tree.specs.Models.{part_of};
ghost use Rattle.smv_reader.specs.Halts.{Reads};
ghost use Rattle.smv_rules.specs.Keys.{heading_by, of_moment};
ghost use Rattle.smv_rules.specs.Programs.{all_assigned, assigned, assigned_from, constrained, declared, defined, more_sections, section_from};
ghost use Rattle.smv_rules.specs.Running.{run};
ghost use Rattle.smv_program_reader.specs.Headings.{heading_of, heading_seen};
ghost use Rattle.smv_reader.specs.Turns.{seen_rest, turn};

use crate::shapes::declared;
use smv_expression_reader::level;
use smv_grammar::LOOSEST;
use smv_reader::{Halt, Reader};
use smv_token::{Lexeme, Mark, Token};
use smv_tree::{Item, Items, Kind, Moment, Name, Place, Section};

/// What a section holds: variables, where the flag says whether instances may stand among them;
/// definitions; assignments; one constraint; one property.
#[derive(Clone, Copy, Debug, PartialEq, Eq)]
pub enum Heading {
    Variables(Kind, bool),
    Definitions,
    Assignments,
    Constraint(Section),
    Property,
}

/// What the section of a word holds.
#[tactic(auto, unfolding(smv_rules::specs::Keys::heading_by))]
pub fn heading_by(mark: Mark) -> Option<Heading>
    ensures { heading_seen result ≡ heading_by mark }
{
    match mark {
        Mark::Var => Some(Heading::Variables(Kind::State, true)),
        Mark::InputVar => Some(Heading::Variables(Kind::Input, false)),
        Mark::FrozenVar => Some(Heading::Variables(Kind::Frozen, false)),
        Mark::Define => Some(Heading::Definitions),
        Mark::Assign => Some(Heading::Assignments),
        Mark::Init => Some(Heading::Constraint(Section::Init)),
        Mark::Trans => Some(Heading::Constraint(Section::Trans)),
        Mark::Invar => Some(Heading::Constraint(Section::Invar)),
        Mark::LtlSpec => Some(Heading::Property),
        _ => None,
    }
}

/// One more declaration, if a name stands there.
#[tactic(auto, unfolding(smv_rules::specs::Running::run, smv_rules::specs::Keys::sees, smv_reader::specs::Turns::turn))]
fn next_declaration<'a>(
    reader: Reader,
    kind: Kind,
    instances: bool,
    items: &mut Items,
    tokens: &'a [Token],
) -> Result<Option<&'a [Token]>, Halt>
    ensures { Reads (λ x. (map part_of items.new.items, seen_rest x)) result (turn reader.room (declared kind instances (map part_of items.old.items)) tokens.now) }
{
    let [first, rest @ ..] = tokens else {
        return Ok(None);
    };
    let Lexeme::Name(name) = &first.lexeme else {
        return Ok(None);
    };
    let (_, rest) = reader.expect(Mark::Colon, rest)?;
    let (shape, rest) = declared(reader, instances, rest)?;
    let (_, rest) = reader.expect(Mark::Semicolon, rest)?;
    let name = name.copy(reader.alloc)?;
    items.push(Item::Var(kind, name, first.place, shape))?;
    Ok(Some(rest))
}

/// The declarations of a section, behind other parts.
#[tactic(auto, using(smv_reader::proofs::Loops::loop_stops, smv_reader::proofs::Loops::loop_goes, smv_reader::proofs::Loops::loop_less))]
pub fn declarations<'a>(
    reader: Reader,
    kind: Kind,
    instances: bool,
    items: &mut Items,
    tokens: &'a [Token],
) -> Result<&'a [Token], Halt>
    ensures { Reads (λ x. (map part_of items.new.items, x.now)) result (run reader.room (declared kind instances (map part_of items.old.items)) tokens.now) }
{
    let mut rest = tokens;
    'declarations: while let Some(behind) = next_declaration(
        reader, kind, instances, items, rest,
    )? {
        rest = behind;
    }
    Ok(rest)
}

/// One more definition, if a name stands there.
#[tactic(auto, unfolding(smv_rules::specs::Running::run, smv_rules::specs::Keys::sees, smv_reader::specs::Turns::turn))]
fn next_definition<'a>(
    reader: Reader,
    items: &mut Items,
    tokens: &'a [Token],
) -> Result<Option<&'a [Token]>, Halt>
    ensures { Reads (λ x. (map part_of items.new.items, seen_rest x)) result (turn reader.room (defined (map part_of items.old.items)) tokens.now) }
{
    let [first, rest @ ..] = tokens else {
        return Ok(None);
    };
    let Lexeme::Name(name) = &first.lexeme else {
        return Ok(None);
    };
    let (_, rest) = reader.expect(Mark::Becomes, rest)?;
    let (body, rest) = level(reader, LOOSEST, rest)?;
    let (_, rest) = reader.expect(Mark::Semicolon, rest)?;
    let name = name.copy(reader.alloc)?;
    items.push(Item::Define(name, first.place, body.expr))?;
    Ok(Some(rest))
}

/// The definitions of a section, behind other parts.
#[tactic(auto, using(smv_reader::proofs::Loops::loop_stops, smv_reader::proofs::Loops::loop_goes, smv_reader::proofs::Loops::loop_less))]
pub fn definitions<'a>(
    reader: Reader,
    items: &mut Items,
    tokens: &'a [Token],
) -> Result<&'a [Token], Halt>
    ensures { Reads (λ x. (map part_of items.new.items, x.now)) result (run reader.room (defined (map part_of items.old.items)) tokens.now) }
{
    let mut rest = tokens;
    'definitions: while let Some(behind) = next_definition(reader, items, rest)? {
        rest = behind;
    }
    Ok(rest)
}

/// The value of an assignment, behind what is assigned.
#[tactic(auto, unfolding(smv_rules::specs::Running::run))]
fn assigned<'a>(
    reader: Reader,
    items: &mut Items,
    moment: Moment,
    name: Name,
    place: Place,
    tokens: &'a [Token],
) -> Result<&'a [Token], Halt>
    ensures { Reads (λ x. (map part_of items.new.items, x.now)) result (run reader.room (assigned (map part_of items.old.items) moment name place) tokens.now) }
{
    let (_, rest) = reader.expect(Mark::Becomes, tokens)?;
    let (value, rest) = level(reader, LOOSEST, rest)?;
    let (_, rest) = reader.expect(Mark::Semicolon, rest)?;
    items.push(Item::Assign(moment, name, place, value.expr))?;
    Ok(rest)
}

/// An assignment of a moment, behind the word of the moment.
#[tactic(auto, unfolding(smv_rules::specs::Running::run))]
fn assigned_at<'a>(
    reader: Reader,
    items: &mut Items,
    moment: Moment,
    place: Place,
    tokens: &'a [Token],
) -> Result<&'a [Token], Halt>
    ensures { Reads (λ x. (map part_of items.new.items, x.now)) result (run reader.room (assigned_from (map part_of items.old.items) (of_moment moment) place) tokens.now) }
{
    let (_, rest) = reader.expect(Mark::OpenRound, tokens)?;
    let (name, place, rest) = reader.name(rest)?;
    let (_, rest) = reader.expect(Mark::CloseRound, rest)?;
    assigned(reader, items, moment, name, place, rest)
}

/// One more assignment, if one begins there.
#[tactic(auto, unfolding(smv_rules::specs::Running::run, smv_rules::specs::Keys::sees, smv_rules::specs::Keys::target_by, smv_reader::specs::Turns::turn))]
fn next_assignment<'a>(
    reader: Reader,
    items: &mut Items,
    tokens: &'a [Token],
) -> Result<Option<&'a [Token]>, Halt>
    ensures { Reads (λ x. (map part_of items.new.items, seen_rest x)) result (turn reader.room (all_assigned (map part_of items.old.items)) tokens.now) }
{
    let [first, rest @ ..] = tokens else {
        return Ok(None);
    };
    let place = first.place;
    let behind = match &first.lexeme {
        Lexeme::Name(name) => {
            let name = name.copy(reader.alloc)?;
            assigned(reader, items, Moment::Each, name, place, rest)?
        }
        Lexeme::Mark(Mark::InitOf) => assigned_at(reader, items, Moment::First, place, rest)?,
        Lexeme::Mark(Mark::Next) => assigned_at(reader, items, Moment::Next, place, rest)?,
        _ => return Ok(None),
    };
    Ok(Some(behind))
}

/// The assignments of a section, behind other parts.
#[tactic(auto, using(smv_reader::proofs::Loops::loop_stops, smv_reader::proofs::Loops::loop_goes, smv_reader::proofs::Loops::loop_less))]
pub fn assignments<'a>(
    reader: Reader,
    items: &mut Items,
    tokens: &'a [Token],
) -> Result<&'a [Token], Halt>
    ensures { Reads (λ x. (map part_of items.new.items, x.now)) result (run reader.room (all_assigned (map part_of items.old.items)) tokens.now) }
{
    let mut rest = tokens;
    'assignments: while let Some(behind) = next_assignment(reader, items, rest)? {
        rest = behind;
    }
    Ok(rest)
}

/// A constraint, behind the word of its section and behind other parts.
#[tactic(auto, unfolding(smv_rules::specs::Running::run))]
pub fn constraint<'a>(
    reader: Reader,
    items: &mut Items,
    section: Section,
    place: Place,
    tokens: &'a [Token],
) -> Result<&'a [Token], Halt>
    ensures { Reads (λ x. (map part_of items.new.items, x.now)) result (run reader.room (constrained (map part_of items.old.items) section place) tokens.now) }
{
    let (body, rest) = level(reader, LOOSEST, tokens)?;
    let (_, rest) = reader.eat(Mark::Semicolon, rest)?;
    items.push(Item::Constraint(section, place, body.expr))?;
    Ok(rest)
}
