ghost use Rattle.std.specs.Prelude.{◌≡◌};
ghost use Rattle.outside.specs.Calls.{Writes};
ghost use Rattle.shell_lang.specs.Fault.{number_of, text_of};

use outside::{Failed, Sink, Text, put_all, put_parts};
use std::alloc::AllocError;
use thiserror::Error;

/// Why a line, a command or a change of a variable or an alias is refused.
#[derive(Debug, Drop, Error)]
pub enum LangFault {
    /// A quote that is not closed.
    #[error("unclosed quote")]
    Quote,
    /// The variable of this name has no value.
    #[error("a variable is not set")]
    Unset(Text),
    /// No line is kept for this event, which is the line from its `!` on.
    #[error("no such event")]
    NoEvent(Text),
    /// No variable or no alias has this name.
    #[error("a name is unknown")]
    NoName(Text),
    /// The known variable of this name does not take the value.
    #[error("an illegal value")]
    BadValue(Text),
    /// A new alias beside a thousand.
    #[error("more than 1000 aliases")]
    TooManyAliases,
    /// Memory was refused.
    #[error("out of memory")]
    NoMemory(AllocError),
}

impl From<AllocError> for LangFault {
    ghost use Rattle.shell_lang.specs.declared.fault.LangFault.TheVariants.{NoMemory};

    ghost from_gives = { λ e f. f ≡ NoMemory e };

    fn from(error: AllocError) -> LangFault {
        LangFault::NoMemory(error)
    }
}

impl LangFault {
    /// The number that the fault has for users.
    pub fn number(&self) -> u32
        ensures { result ≡ number_of self.now }
    {
        match self {
            LangFault::Quote => 631,
            LangFault::Unset(_) => 632,
            LangFault::NoEvent(_) => 633,
            LangFault::NoName(_) => 635,
            LangFault::BadValue(_) => 636,
            LangFault::TooManyAliases => 637,
            LangFault::NoMemory(_) => 900,
        }
    }

    /// Writes what the fault says to users, without its number.
    ///
    /// # Errors
    ///
    /// `Failed` after a fault of the sink; a front of the text was written then.
    pub fn print_text<S: Sink>(&self, out: &mut S) -> Result<(), Failed>
        ensures { Writes (text_of self.now) (S.told out.old) result (S.told out.new) }
    {
        match self {
            LangFault::Quote => put_all(out, b"unclosed quote"),
            LangFault::Unset(name) => put_parts(out, &[name.as_slice(), b" is not set"]),
            LangFault::NoEvent(_) => put_all(out, b"no such event"),
            LangFault::NoName(name) => put_parts(out, &[name.as_slice(), b" is unknown"]),
            LangFault::BadValue(name) => put_parts(out, &[name.as_slice(), b": illegal value"]),
            LangFault::TooManyAliases => put_all(out, b"more than 1000 aliases"),
            LangFault::NoMemory(_) => put_all(out, b"out of memory"),
        }
    }
}
