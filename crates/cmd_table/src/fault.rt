ghost use Rattle.std.specs.Prelude.{◌≡◌};
ghost use Rattle.outside.specs.Calls.{Writes};

use outside::{Failed, Sink, Text, put_all, put_parts};
use std::alloc::AllocError;
use thiserror::Error;

/// Why the words of a command are refused.
#[derive(Debug, Drop, Error)]
pub enum OptFault {
    /// A word that begins with `-` and is no option.
    #[error("unknown option")]
    Unknown(Text),
    /// An option that takes a word, and none follows.
    #[error("argument missing")]
    NoArgument(Text),
    /// An option that is given twice.
    #[error("given twice")]
    Repeated(Text),
    /// Two options, or an option and a free word, that exclude each other.
    #[error("two words exclude each other")]
    Excluded(Text, Text),
    /// A word that is to be a number and is not, or is one out of range.
    #[error("number unreadable or out of range")]
    Number(Text),
    /// A free word beyond the most that there may be.
    #[error("too many words")]
    Many(Text),
    /// An option or a free word that is missing.
    #[error("a word is missing")]
    Required(Text),
    /// Memory was refused.
    #[error("out of memory")]
    NoMemory(AllocError),
}

impl From<AllocError> for OptFault {
    ghost use Rattle.cmd_table.specs.declared.fault.OptFault.TheVariants.{NoMemory};

    ghost from_gives = { λ e f. f ≡ NoMemory e };

    fn from(error: AllocError) -> OptFault {
        OptFault::NoMemory(error)
    }
}

impl OptFault {
    ghost use Rattle.cmd_table.specs.Fault.{number_of, text_of};

    /// The number that the fault has for users.
    pub fn number(&self) -> u32
        ensures { result ≡ number_of self.now }
    {
        match self {
            OptFault::Unknown(_) => 621,
            OptFault::NoArgument(_) => 622,
            OptFault::Repeated(_) => 623,
            OptFault::Excluded(_, _) => 624,
            OptFault::Number(_) => 625,
            OptFault::Many(_) => 626,
            OptFault::Required(_) => 627,
            OptFault::NoMemory(_) => 900,
        }
    }

    /// Writes what the fault says to users, without its number.
    ///
    /// # Errors
    ///
    /// `Failed` after a fault of the sink; a front of the text was written then.
    pub fn print_text<S: Sink>(&self, out: &mut S) -> Result<(), Failed>
        ensures { Writes (text_of self.now) (S.told out.old) result (S.told out.new) }
    {
        match self {
            OptFault::Unknown(word) => put_parts(out, &[word.as_slice(), b": unknown option"]),
            OptFault::NoArgument(word) => put_parts(out, &[word.as_slice(), b": argument missing"]),
            OptFault::Repeated(word) => put_parts(out, &[word.as_slice(), b": given twice"]),
            OptFault::Excluded(first, second) => put_parts(
                out,
                &[
                    first.as_slice(),
                    b" and ",
                    second.as_slice(),
                    b" exclude each other",
                ],
            ),
            OptFault::Number(word) => put_parts(
                out,
                &[word.as_slice(), b": number unreadable or out of range"],
            ),
            OptFault::Many(word) => put_parts(out, &[word.as_slice(), b": too many words"]),
            OptFault::Required(word) => put_parts(out, &[word.as_slice(), b": missing"]),
            OptFault::NoMemory(_) => put_all(out, b"out of memory"),
        }
    }
}
