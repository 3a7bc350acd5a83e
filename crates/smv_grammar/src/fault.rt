ghost use Rattle.std.specs.Prelude.{◌≡◌};
ghost use Rattle.outside.specs.Calls.{Writes};
ghost use Rattle.smv_grammar.specs.Faults.{fault_text, number_of, place_of, placed, said};

use outside::{Failed, Sink, put_all, put_numbered, put_parts};
use smv_tree::{Name, Place};
use std::alloc::AllocError;
use thiserror::Error;

/// Why a text is no expression, no formula or no program, with the place at which that shows first.
#[derive(Debug, Drop, Error)]
pub enum ParseFault {
    /// A byte that begins no token.
    #[error("unexpected byte")]
    BadByte(Place),
    /// A word constant that is not completed, or whose value does not fit its width.
    #[error("bad word constant")]
    BadWord(Place),
    /// A number from 2 to the 63rd on.
    #[error("number out of range")]
    NumberRange(Place),
    /// A token that cannot stand there.
    #[error("unexpected token")]
    Unexpected(Place),
    /// The text ends too early.
    #[error("unexpected end")]
    End(Place),
    /// More than 1,000 nestings are open, or an expression is deeper than 1,000.
    #[error("nested too deep")]
    Deep(Place),
    /// A reserved word without use here.
    #[error("a word is left out")]
    LeftOut(Place, Name),
    /// `JUSTICE` or `FAIRNESS`.
    #[error("fairness is left out")]
    Fairness(Place),
    /// An operator on the past.
    #[error("past operator is left out")]
    Past(Place),
    /// `INVARSPEC`.
    #[error("INVARSPEC is left out")]
    InvarSpec(Place),
    /// A name of more than 255 bytes.
    #[error("name longer than 255 bytes")]
    LongName(Place),
    /// Memory was refused.
    #[error("out of memory")]
    NoMemory(AllocError),
}

impl ParseFault {
    /// The number of the refusal.
    pub fn number(&self) -> u32
        ensures { result ≡ number_of self.now }
    {
        match self {
            ParseFault::BadByte(_) => 101,
            ParseFault::BadWord(_) => 102,
            ParseFault::NumberRange(_) => 103,
            ParseFault::Unexpected(_) => 104,
            ParseFault::End(_) => 105,
            ParseFault::Deep(_) => 106,
            ParseFault::LeftOut(_, _) => 107,
            ParseFault::Fairness(_) => 108,
            ParseFault::Past(_) => 109,
            ParseFault::InvarSpec(_) => 110,
            ParseFault::LongName(_) => 111,
            ParseFault::NoMemory(_) => 900,
        }
    }

    /// The place that it names.
    pub fn place(&self) -> Option<Place>
        ensures { result ≡ place_of self.now }
    {
        match self {
            ParseFault::BadByte(place) => Some(*place),
            ParseFault::BadWord(place) => Some(*place),
            ParseFault::NumberRange(place) => Some(*place),
            ParseFault::Unexpected(place) => Some(*place),
            ParseFault::End(place) => Some(*place),
            ParseFault::Deep(place) => Some(*place),
            ParseFault::LeftOut(place, _) => Some(*place),
            ParseFault::Fairness(place) => Some(*place),
            ParseFault::Past(place) => Some(*place),
            ParseFault::InvarSpec(place) => Some(*place),
            ParseFault::LongName(place) => Some(*place),
            ParseFault::NoMemory(_) => None,
        }
    }

    /// Writes what the fault says, without its place.
    fn put_said<S: Sink>(&self, out: &mut S) -> Result<(), Failed>
        ensures { Writes (said self.now) (S.told out.old) result (S.told out.new) }
    {
        match self {
            ParseFault::BadByte(_) => put_all(out, b"unexpected byte"),
            ParseFault::BadWord(_) => put_all(out, b"bad word constant"),
            ParseFault::NumberRange(_) => put_all(out, b"number out of range"),
            ParseFault::Unexpected(_) => put_all(out, b"unexpected token"),
            ParseFault::End(_) => put_all(out, b"unexpected end"),
            ParseFault::Deep(_) => put_all(out, b"nested too deep"),
            ParseFault::LeftOut(_, word) => put_parts(out, &[word.as_slice(), b" is left out"]),
            ParseFault::Fairness(_) => put_all(out, b"fairness is left out"),
            ParseFault::Past(_) => put_all(out, b"past operator is left out"),
            ParseFault::InvarSpec(_) => put_all(out, b"INVARSPEC is left out"),
            ParseFault::LongName(_) => put_all(out, b"name longer than 255 bytes"),
            ParseFault::NoMemory(_) => put_all(out, b"out of memory"),
        }
    }

    /// Writes the place that it names, as line and column, and what it says to users.
    ///
    /// # Errors
    ///
    /// `Failed` after a fault of the sink; a front of the text was written then.
    pub fn print_text<S: Sink>(&self, out: &mut S) -> Result<(), Failed>
        ensures { Writes (fault_text self.now) (S.told out.old) result (S.told out.new) }
    {
        put_place(out, self.place())?;
        self.put_said(out)
    }
}

/// Writes a place as line and column, if there is one.
#[tactic(auto, using(outside::proofs::WriteLemmas::writes_none))]
fn put_place<S: Sink>(out: &mut S, place: Option<Place>) -> Result<(), Failed>
    ensures { Writes (placed place) (S.told out.old) result (S.told out.new) }
{
    let Some(place) = place else {
        return Ok(());
    };
    put_numbered(out, b"", place.line as u64, b":")?;
    put_numbered(out, b"", place.column as u64, b": ")
}

impl From<AllocError> for ParseFault {
    ghost use Rattle.std.specs.Prelude.{◌≡◌};
    ghost use Rattle.smv_grammar.specs.declared.fault.ParseFault.TheVariants.{NoMemory};

    ghost from_gives = { λ e f. f ≡ NoMemory e };

    fn from(error: AllocError) -> ParseFault {
        ParseFault::NoMemory(error)
    }
}
