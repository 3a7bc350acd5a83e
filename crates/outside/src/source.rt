ghost use Rattle.std.specs.Prelude.{◌≡◌, ◌≢◌, [], ◌∷◌, IfOk, IfSome, IfNone, IsSome, OnErr, OnOk};
ghost use Rattle.std.specs.Io.KnownBytes.{prepend_known};
ghost use Rattle.outside.specs.Calls.{Fills, Writes};
ghost use Rattle.outside.specs.Told.{HasRisen, Input};
ghost use Rattle.outside.specs.Lines.{ReadsLine, fault_number, fault_text};
ghost use Rattle.outside.specs.declared.source.LineFault.TheVariants.{NoMemory};

use crate::{Failed, Sink, Text, put_all};
use std::alloc::{AllocError, Global};

/// Where input comes from.
pub trait Source {
    /// The bytes that are still to come, if the source tells them, and how often a read has
    /// failed.
    ghost told: { Self → Input };

    /// Reads bytes into the front of the buffer, and answers how many. Zero for a buffer that has
    /// room is the end of the input.
    ///
    /// # Errors
    ///
    /// `Failed` after a fault of the source; nothing was taken then.
    fn read(&mut self, buf: &mut [u8]) -> Result<usize, Failed>
        ensures { Fills buf.old buf.new (told self.old) result (told self.new) };
}

/// What a read of a line found.
#[derive(Debug, Drop)]
pub enum Line {
    /// The input was read to its end, and nothing stood before it.
    End,
    /// A line without its line feed. The last line may lack one.
    Line(Text),
}

/// Why no line was read.
#[derive(Debug, Drop)]
pub enum LineFault {
    /// The source failed.
    ReadFault,
    /// The line is longer than its limit.
    TooLong,
    NoMemory(AllocError),
}

impl From<AllocError> for LineFault {
    ghost from_gives = { λ e fault. fault ≡ NoMemory e };

    fn from(e: AllocError) -> LineFault {
        LineFault::NoMemory(e)
    }
}

impl LineFault {
    /// The number of the refusal.
    pub fn number(&self) -> u32
        ensures { result ≡ fault_number self.now }
    {
        match self {
            LineFault::ReadFault => 801,
            LineFault::TooLong => 802,
            LineFault::NoMemory(_) => 900,
        }
    }

    /// Writes what the fault says to users, without its number. The limit that it names is that of a
    /// line of the shell.
    ///
    /// # Errors
    ///
    /// `Failed` after a fault of the sink; a front of the text was written then.
    pub fn print_text<S: Sink>(&self, out: &mut S) -> Result<(), Failed>
        ensures { Writes (fault_text self.now) (S.told out.old) result (S.told out.new) }
    {
        match self {
            LineFault::ReadFault => put_all(out, b"the input failed"),
            LineFault::TooLong => put_all(out, b"line longer than 65536 bytes"),
            LineFault::NoMemory(_) => put_all(out, b"out of memory"),
        }
    }
}

/// Reads one byte, or none at the end.
fn read_byte<S: Source>(from: &mut S) -> Result<Option<u8>, Failed>
    ensures byte { IfOk result (λ found. IfSome found (λ b. (S.told from.old).left ≡ prepend_known (b ∷ []) (S.told from.new).left)) }
    ensures end { IfOk result (λ found. IfNone found (((S.told from.new).left ≡ (S.told from.old).left) × IfSome (S.told from.old).left (λ bytes. bytes ≡ []))) }
    ensures more { IfOk result (λ found. IsSome found → IfSome (S.told from.old).left (λ bytes. bytes ≢ [])) }
    ensures err { OnErr result ((S.told from.new).left ≡ (S.told from.old).left) }
    ensures cause { OnErr result (HasRisen (S.told from.old).faults (S.told from.new).faults) }
    ensures quiet { OnOk result ((S.told from.new).faults ≡ (S.told from.old).faults) }
{
    let mut byte = [0u8; 1];
    let read = from.read(&mut byte)?;
    Ok(if read == 0 { None } else { Some(byte[0]) })
}

/// Reads a line: the bytes up to a line feed, which is taken and not given, or up to the end.
///
/// # Errors
///
/// `ReadFault` after a fault of the source, `TooLong` at the byte after `limit` others without a
/// line feed, `NoMemory` where memory is refused. A front of the line was taken then.
#[tactic(auto, using(crate::proofs::ToldLemmas::taken_past, crate::proofs::ToldLemmas::taken_front))]
pub fn read_line<S: Source>(alloc: Global, from: &mut S, limit: usize) -> Result<Line, LineFault>
    ensures { ReadsLine limit (S.told from.old) result (S.told from.new) }
{
    let mut line = Text::new(alloc);
    loop {
        let Ok(next) = read_byte(from) else {
            return Err(LineFault::ReadFault);
        };
        let Some(byte) = next else {
            return Ok(if line.is_empty() {
                Line::End
            } else {
                Line::Line(line)
            });
        };
        if byte == b'\n' {
            return Ok(Line::Line(line));
        }
        if line.len() == limit {
            return Err(LineFault::TooLong);
        }
        line.push(byte)?;
    }
}
