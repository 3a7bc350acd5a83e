ghost use Rattle.std.specs.Prelude.{◌≡◌, ◌⊎◌, List, Result, Err, alloc_error};
ghost use Rattle.shell_lang.specs.Answers.{Answers};
ghost use Rattle.shell_lang.specs.Lines.{Splits};
ghost use Rattle.shell_lang.specs.declared.fault.LangFault.{LangFault};
ghost use Rattle.shell_lang.specs.declared.fault.LangFault.TheVariants.{NoMemory};
ghost use Rattle.shell_lang.specs.declared.line.Piece.{Piece};

use crate::builder::Builder;
use crate::mark::Mark;
use crate::{Commands, LangFault};
use outside::Text;
use std::alloc::Global;

/// The commands of a line. Blanks and tabs part words; `"` opens and closes quoted text inside a
/// word; outside quotes `;` ends a command, `#` begins a comment, and `$` with a name stands for the
/// value of a variable. Commands with no word are skipped.
///
/// # Errors
///
/// `Quote` where a quote is not closed, `NoMemory` where memory is refused.
pub fn split_line(alloc: Global, line: &Text) -> Result<Commands, LangFault>
    ensures right { Splits line.now result ⊎ (result ≡ Err (NoMemory alloc_error)) }
    ensures only { (answer : Result (List (List (List Piece))) LangFault) →
        Splits line.now answer → Answers answer result }
{
    let bytes = line.as_slice();
    let mut builder = Builder::new(alloc);
    let mut at = 0;
    loop {
        let (_, rest) = bytes.split_at(at);
        match Mark::first(alloc, rest)? {
            Some((mark, len)) => {
                builder.add(mark)?;
                at += len;
            }
            None => return Ok(builder.finish()?),
        }
    }
}
