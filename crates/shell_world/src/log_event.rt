ghost use Rattle.outside.specs.Calls.{Writes};
ghost use Rattle.shell_world.specs.LogTexts.{accepted_text, ended_text, log_text};

use outside::{Failed, Sink, put_all, put_number, put_numbered};

/// What is said of a log that is accepted.
#[derive(Clone, Copy, Debug)]
pub struct LogEvent {
    /// How many of its lines are originals.
    pub originals: u64,
    /// How many are not.
    pub others: u64,
}

/// Writes a number and a line end.
fn print_ended<S: Sink>(number: u64, out: &mut S) -> Result<(), Failed>
    ensures { Writes (ended_text number) (S.told out.old) result (S.told out.new) }
{
    put_number(out, number)?;
    put_all(out, b"\n")
}

/// Writes that a log is accepted.
fn print_accepted<S: Sink>(given: u64, others: u64, out: &mut S) -> Result<(), Failed>
    ensures { Writes (accepted_text given others) (S.told out.old) result (S.told out.new) }
{
    put_numbered(
        out,
        b"-- the log is accepted, originals: ",
        given,
        b", lines: ",
    )?;
    print_ended(others, out)
}

impl LogEvent {
    /// Writes the text.
    ///
    /// # Errors
    ///
    /// `Failed` after a fault of the sink; a front of the text was written then.
    pub fn print<S: Sink>(&self, out: &mut S) -> Result<(), Failed>
        ensures { Writes (log_text self.now) (S.told out.old) result (S.told out.new) }
    {
        print_accepted(self.originals, self.others, out)
    }
}
