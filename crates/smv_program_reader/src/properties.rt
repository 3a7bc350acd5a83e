ghost use Rattle.std.specs.Prelude.{map};
ghost use Rattle.smv_tree.specs.Models.{part_of};
ghost use Rattle.smv_reader.specs.Halts.{Reads};
ghost use Rattle.smv_formula_reader.specs.Flags.{Flagged};
ghost use Rattle.smv_rules.specs.Programs.{a_property, specified, specified_by_name};
ghost use Rattle.smv_rules.specs.Running.{run};

use smv_formula_reader::formula;
use smv_grammar::OUTERMOST;
use smv_reader::{Halt, Reader};
use smv_token::{Mark, Token};
use smv_tree::{Item, Items, Name, Place};

/// A property, behind its name and behind other parts.
#[tactic(auto, unfolding(smv_rules::specs::Running::run))]
fn specified<'a>(
    reader: Reader,
    flags: &[bool],
    items: &mut Items,
    name: Option<Name>,
    place: Place,
    tokens: &'a [Token],
) -> Result<&'a [Token], Halt>
    requires { Flagged flags.now tokens.now }
    ensures { Reads (λ x. (map part_of items.new.items, x.now)) result (run reader.room (specified (map part_of items.old.items) name place) tokens.now) }
{
    let (part, rest) = formula(reader, flags, OUTERMOST, tokens)?;
    let (_, rest) = reader.eat(Mark::Semicolon, rest)?;
    items.push(Item::Spec(name, place, part.formula))?;
    Ok(rest)
}

/// A property, behind the word before its name and behind other parts.
#[tactic(auto, unfolding(smv_rules::specs::Running::run))]
fn specified_by_name<'a>(
    reader: Reader,
    flags: &[bool],
    items: &mut Items,
    place: Place,
    tokens: &'a [Token],
) -> Result<&'a [Token], Halt>
    requires { Flagged flags.now tokens.now }
    ensures { Reads (λ x. (map part_of items.new.items, x.now)) result (run reader.room (specified_by_name (map part_of items.old.items) place) tokens.now) }
{
    let (name, _, rest) = reader.name(tokens)?;
    let (_, rest) = reader.expect(Mark::Becomes, rest)?;
    specified(reader, flags, items, Some(name), place, rest)
}

/// A property, behind its word and behind other parts.
#[tactic(auto, unfolding(smv_rules::specs::Running::run, smv_rules::specs::Keys::sees))]
pub fn property<'a>(
    reader: Reader,
    flags: &[bool],
    items: &mut Items,
    place: Place,
    tokens: &'a [Token],
) -> Result<&'a [Token], Halt>
    requires { Flagged flags.now tokens.now }
    ensures { Reads (λ x. (map part_of items.new.items, x.now)) result (run reader.room (a_property (map part_of items.old.items) place) tokens.now) }
{
    let (named, rest) = reader.eat(Mark::NameWord, tokens)?;
    if named {
        return specified_by_name(reader, flags, items, place, rest);
    }
    specified(reader, flags, items, None, place, rest)
}
