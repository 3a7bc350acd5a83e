ghost use Rattle.std.specs.Prelude.{◌≡◌};
ghost use Rattle.outside.specs.Calls.{Writes};
ghost use Rattle.sat_log_text.specs.FaultText.{fault_text, fault_number};

use outside::{Failed, Sink, put_all, put_numbered};
use std::alloc::AllocError;
use thiserror::Error;

/// Why a text is no log.
#[derive(Debug, Drop, Error)]
pub enum LogFault {
    /// In this line of the text a number or a word is wrong.
    #[error("bad number or word")]
    BadNumber(u64),
    /// In this line of the text a list lacks the 0 at its end.
    #[error("missing 0")]
    MissingZero(u64),
    /// In this line of the text a hint names no earlier clause.
    #[error("hint to no earlier clause")]
    BadHint(u64),
    /// The clause of this id doesn't follow, or is no proper original.
    #[error("clause is not accepted")]
    NotAccepted(u64),
    /// The text has no last line, or one with another number of clauses.
    #[error("log ends too early")]
    Truncated,
    /// Memory was refused.
    #[error("out of memory")]
    NoMemory(AllocError),
}

impl LogFault {
    /// The number under which the fault is known.
    pub fn number(&self) -> u32
        ensures { result ≡ fault_number self.now }
    {
        match self {
            LogFault::BadNumber(_) => 501,
            LogFault::MissingZero(_) => 502,
            LogFault::BadHint(_) => 503,
            LogFault::NotAccepted(_) => 504,
            LogFault::Truncated => 505,
            LogFault::NoMemory(_) => 900,
        }
    }

    /// Writes what the fault is, and where.
    ///
    /// # Errors
    ///
    /// `Failed` after a fault of the sink; a front of the text was written then.
    pub fn print_text<S: Sink>(&self, out: &mut S) -> Result<(), Failed>
        ensures { Writes (fault_text self.now) (S.told out.old) result (S.told out.new) }
    {
        match self {
            LogFault::BadNumber(line) => put_numbered(
                out,
                b"line ",
                *line,
                b": bad number or word",
            ),
            LogFault::MissingZero(line) => put_numbered(out, b"line ", *line, b": missing 0"),
            LogFault::BadHint(line) => {
                put_numbered(out, b"line ", *line, b": hint to no earlier clause")
            }
            LogFault::NotAccepted(id) => put_numbered(out, b"clause ", *id, b" is not accepted"),
            LogFault::Truncated => put_all(out, b"the log ends too early"),
            LogFault::NoMemory(_) => put_all(out, b"out of memory"),
        }
    }
}
