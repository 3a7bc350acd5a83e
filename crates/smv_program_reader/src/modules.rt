ghost use Rattle.std.specs.Prelude.{map};
ghost use Rattle.smv_tree.specs.Models.{bodies, body_of, part_of};
ghost use Rattle.smv_reader.specs.Halts.{Reads};
ghost use Rattle.smv_formula_reader.specs.Flags.{Flagged};
ghost use Rattle.smv_rules.specs.Programs.{more_modules, more_sections, one_module, program, section_from, sections};
ghost use Rattle.smv_rules.specs.Running.{run};
ghost use Rattle.smv_program_reader.specs.Headings.{heading_of};
ghost use Rattle.smv_reader.specs.Turns.{seen_rest, turn};

use crate::parameters::formals;
use crate::properties::property;
use crate::sections::{Heading, assignments, constraint, declarations, definitions, heading_by};
use smv_reader::{Halt, Reader};
use smv_token::{Lexeme, Mark, Token};
use smv_tree::{Items, Module, Modules, Place, Program};

/// A section, behind its word and behind other parts.
fn section<'a>(
    reader: Reader,
    flags: &[bool],
    items: &mut Items,
    heading: Heading,
    place: Place,
    tokens: &'a [Token],
) -> Result<&'a [Token], Halt>
    requires { Flagged flags.now tokens.now }
    ensures { Reads (λ x. (map part_of items.new.items, x.now)) result (run reader.room (section_from (map part_of items.old.items) (heading_of heading) place) tokens.now) }
{
    match heading {
        Heading::Variables(kind, instances) => {
            declarations(reader, kind, instances, items, tokens)
        }
        Heading::Definitions => definitions(reader, items, tokens),
        Heading::Assignments => assignments(reader, items, tokens),
        Heading::Constraint(section) => constraint(reader, items, section, place, tokens),
        Heading::Property => property(reader, flags, items, place, tokens),
    }
}

/// One more section, if the word of one stands there.
#[tactic(auto, using(smv_formula_reader::proofs::GroupFlags::flagged_behind), unfolding(smv_rules::specs::Running::run, smv_rules::specs::Keys::sees, smv_reader::specs::Turns::turn))]
fn next_section<'a>(
    reader: Reader,
    flags: &[bool],
    items: &mut Items,
    tokens: &'a [Token],
) -> Result<Option<&'a [Token]>, Halt>
    requires { Flagged flags.now tokens.now }
    ensures { Reads (λ x. (map part_of items.new.items, seen_rest x)) result (turn reader.room (more_sections (map part_of items.old.items)) tokens.now) }
{
    let [first, rest @ ..] = tokens else {
        return Ok(None);
    };
    let Lexeme::Mark(mark) = first.lexeme else {
        return Ok(None);
    };
    let Some(heading) = heading_by(mark) else {
        return Ok(None);
    };
    let rest = section(reader, flags, items, heading, first.place, rest)?;
    Ok(Some(rest))
}

/// The sections of a module.
#[tactic(auto, using(smv_reader::proofs::Loops::loop_stops, smv_reader::proofs::Loops::loop_goes, smv_reader::proofs::Loops::loop_less, smv_formula_reader::proofs::Flags::flagged_turn))]
fn sections<'a>(
    reader: Reader,
    flags: &[bool],
    tokens: &'a [Token],
) -> Result<(Items, &'a [Token]), Halt>
    requires { Flagged flags.now tokens.now }
    ensures { Reads (λ x. (map part_of x.0.items, x.1.now)) result (run reader.room sections tokens.now) }
{
    let (mut items, mut rest) = (Vec::new(reader.alloc), tokens);
    'sections: while let Some(behind) = next_section(reader, flags, &mut items, rest)? {
        rest = behind;
    }
    Ok((items, rest))
}

/// A module, behind its word and behind other modules.
#[tactic(auto, unfolding(smv_rules::specs::Running::run))]
fn one_module<'a>(
    reader: Reader,
    flags: &[bool],
    modules: &mut Modules,
    tokens: &'a [Token],
) -> Result<&'a [Token], Halt>
    requires { Flagged flags.now tokens.now }
    ensures { Reads (λ x. (map body_of modules.new.items, x.now)) result (run reader.room (one_module (map body_of modules.old.items)) tokens.now) }
{
    let (name, place, rest) = reader.name(tokens)?;
    let (params, rest) = formals(reader, rest)?;
    let (items, rest) = sections(reader, flags, rest)?;
    modules.push(Module {
        name,
        place,
        params,
        items,
    })?;
    Ok(rest)
}

/// One more module, if the word of one stands there.
#[tactic(auto, unfolding(smv_rules::specs::Running::run, smv_rules::specs::Keys::sees, smv_reader::specs::Turns::turn))]
fn next_module<'a>(
    reader: Reader,
    flags: &[bool],
    modules: &mut Modules,
    tokens: &'a [Token],
) -> Result<Option<&'a [Token]>, Halt>
    requires { Flagged flags.now tokens.now }
    ensures { Reads (λ x. (map body_of modules.new.items, seen_rest x)) result (turn reader.room (more_modules (map body_of modules.old.items)) tokens.now) }
{
    let (begins, rest) = reader.eat(Mark::Module, tokens)?;
    if !begins {
        return Ok(None);
    }
    let rest = one_module(reader, flags, modules, rest)?;
    Ok(Some(rest))
}

/// Modules, as many as there are.
#[tactic(auto, using(smv_reader::proofs::Loops::loop_stops, smv_reader::proofs::Loops::loop_goes, smv_reader::proofs::Loops::loop_less, smv_formula_reader::proofs::Flags::flagged_turn))]
pub fn program<'a>(
    reader: Reader,
    flags: &[bool],
    tokens: &'a [Token],
) -> Result<(Program, &'a [Token]), Halt>
    requires { Flagged flags.now tokens.now }
    ensures { Reads (λ x. (bodies x.0, x.1.now)) result (run reader.room program tokens.now) }
{
    let (mut modules, mut rest) = (Vec::new(reader.alloc), tokens);
    'modules: while let Some(behind) = next_module(reader, flags, &mut modules, rest)? {
        rest = behind;
    }
    Ok((Program { modules }, rest))
}
