ghost use Rattle.std.specs.Prelude.{◌∷◌, [], map};
ghost use Rattle.smv_tree.specs.Models.{formal_of};
ghost use Rattle.smv_reader.specs.Halts.{Reads};
ghost use Rattle.smv_rules.specs.Programs.{formals, more_formals, some_names};
ghost use Rattle.smv_rules.specs.Running.{run};
ghost use Rattle.smv_reader.specs.Turns.{seen_rest, turn};

use smv_reader::{Halt, Reader};
use smv_token::{Mark, Token};
use smv_tree::{Param, Params};

/// One more formal parameter behind a comma, if a comma stands there.
#[tactic(auto, unfolding(smv_rules::specs::Running::run, smv_rules::specs::Keys::sees, smv_reader::specs::Turns::turn))]
fn next_formal<'a>(
    reader: Reader,
    params: &mut Params,
    tokens: &'a [Token],
) -> Result<Option<&'a [Token]>, Halt>
    ensures { Reads (λ x. (map formal_of params.new.items, seen_rest x)) result (turn reader.room (more_formals (map formal_of params.old.items)) tokens.now) }
{
    let (comma, rest) = reader.eat(Mark::Comma, tokens)?;
    if !comma {
        return Ok(None);
    }
    let (name, place, rest) = reader.name(rest)?;
    params.push(Param { name, place })?;
    Ok(Some(rest))
}

/// The formal parameters behind the first, each behind a comma.
#[tactic(auto, using(smv_reader::proofs::Loops::loop_stops, smv_reader::proofs::Loops::loop_goes, smv_reader::proofs::Loops::loop_less))]
fn more_formals(reader: Reader, first: Param, tokens: &[Token]) -> Result<(Params, &[Token]), Halt>
    ensures { Reads (λ x. (map formal_of x.0.items, x.1.now)) result (run reader.room (more_formals (formal_of first ∷ [])) tokens.now) }
{
    let mut params = vec![in reader.alloc; first]?;
    let mut rest = tokens;
    'formals: while let Some(behind) = next_formal(reader, &mut params, rest)? {
        rest = behind;
    }
    Ok((params, rest))
}

/// Formal parameters and their `)`.
#[tactic(auto, unfolding(smv_rules::specs::Running::run))]
fn some_formals(reader: Reader, tokens: &[Token]) -> Result<(Params, &[Token]), Halt>
    ensures { Reads (λ x. (map formal_of x.0.items, x.1.now)) result (run reader.room some_names tokens.now) }
{
    let (name, place, rest) = reader.name(tokens)?;
    let (params, rest) = more_formals(reader, Param { name, place }, rest)?;
    let (_, rest) = reader.expect(Mark::CloseRound, rest)?;
    Ok((params, rest))
}

/// Formal parameters in brackets, if brackets stand there.
#[tactic(auto, unfolding(smv_rules::specs::Running::run, smv_rules::specs::Keys::sees))]
pub fn formals(reader: Reader, tokens: &[Token]) -> Result<(Params, &[Token]), Halt>
    ensures { Reads (λ x. (map formal_of x.0.items, x.1.now)) result (run reader.room formals tokens.now) }
{
    let (opened, rest) = reader.eat(Mark::OpenRound, tokens)?;
    if !opened {
        return Ok((Vec::new(reader.alloc), rest));
    }
    let (empty, rest) = reader.eat(Mark::CloseRound, rest)?;
    if empty {
        return Ok((Vec::new(reader.alloc), rest));
    }
    some_formals(reader, rest)
}
