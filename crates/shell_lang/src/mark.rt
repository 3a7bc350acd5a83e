ghost use Rattle.std.specs.Prelude.{◌≡◌, ◌≤◌, ◌<◌, ◌⊎◌, length, IfOk, MatchResult, alloc_error};

use crate::run::Run;
use crate::{LangFault, Piece};
use outside::Text;
use std::alloc::{AllocError, Global};

// What a line is made of.
#[derive(Debug, Drop)]
pub enum Mark {
    // A piece of a word.
    Part(Piece),
    // What parts words.
    Gap,
    // What ends a command.
    End,
}

impl Mark {
    ghost use Rattle.shell_lang.specs.Lines.{start_of, start_quoted, start_dollar, start_plain};
    ghost use Rattle.shell_lang.specs.Lines.Start.{unclosed};
    ghost use Rattle.shell_lang.specs.declared.fault.LangFault.TheVariants.{Quote, NoMemory};
    ghost use Rattle.shell_lang.specs.Marks.{IsFirst, Takes};

    // The mark that the line begins with and how many bytes it takes, or none where the line is over
    // or a comment begins. `Quote` where a quote is not closed.
    pub fn first(alloc: Global, line: &[u8]) -> Result<Option<(Mark, usize)>, LangFault>
        ensures { IsFirst (start_of line.now) line.now result }
    {
        match line {
            [] | [b'#', ..] => Ok(None),
            [b'"', rest @ ..] => {
                let (mark, len) = Mark::quoted(alloc, rest)?;
                Ok(Some((mark, len + 1)))
            }
            [b'$', rest @ ..] => {
                let (mark, len) = Mark::dollar(alloc, rest)?;
                Ok(Some((mark, len + 1)))
            }
            [b';', ..] => Ok(Some((Mark::End, 1))),
            [b' ' | b'\t', ..] => Ok(Some((Mark::Gap, 1))),
            _ => Ok(Some(Mark::plain(alloc, line)?)),
        }
    }

    // The quoted text after a quote, up to the next one, which it takes too.
    fn quoted(alloc: Global, rest: &[u8]) -> Result<(Mark, usize), LangFault>
        ensures { MatchResult result
            (λ taken. Takes (start_quoted rest.now) rest.now taken)
            (λ fault. ((fault ≡ Quote) × (start_quoted rest.now ≡ unclosed))
            ⊎ (fault ≡ NoMemory alloc_error)) }
    {
        let len = Run::Quoted.len(rest);
        if len == rest.len() {
            return Err(LangFault::Quote);
        }
        let text = Text::from_slice(alloc, &rest[..len])?;
        Ok((Mark::Part(Piece::Plain(text)), len + 1))
    }

    // The variable whose name stands after a `$`, or the `$` itself where none does.
    fn dollar(alloc: Global, rest: &[u8]) -> Result<(Mark, usize), AllocError>
        ensures { IfOk result (λ taken. Takes (start_dollar rest.now) rest.now taken) }
    {
        let len = Run::Name.len(rest);
        if len == 0 {
            return Ok((Mark::Part(Piece::Plain(Text::from_slice(alloc, b"$")?)), 0));
        }
        let name = Text::from_slice(alloc, &rest[..len])?;
        Ok((Mark::Part(Piece::Var(name)), len))
    }

    // The longest plain text that the line begins with.
    fn plain(alloc: Global, line: &[u8]) -> Result<(Mark, usize), AllocError>
        ensures { IfOk result (λ taken. Takes (start_plain line.now) line.now taken) }
    {
        let len = Run::Plain.len(line);
        let text = Text::from_slice(alloc, &line[..len])?;
        Ok((Mark::Part(Piece::Plain(text)), len))
    }
}
