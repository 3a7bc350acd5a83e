ghost use Rattle.std.specs.Prelude.{◌≡◌};
ghost use Rattle.outside.specs.Calls.{Writes};
ghost use Rattle.shell_world.specs.Texts.{side_of, text_of};

use crate::{LogEvent, Refusal, SettingsEvent, ShellEvent, TraceEvent};
use outside::{Failed, Sink, put_all};

/// Where the text of an event is written.
#[derive(Clone, Copy, Debug, PartialEq, Eq)]
pub enum Side {
    Output,
    Errors,
}

/// What happened in a session.
#[derive(Debug, Drop)]
pub enum Event {
    Shell(ShellEvent),
    Settings(SettingsEvent),
    Log(LogEvent),
    Trace(TraceEvent),
    Refused(Refusal),
    /// The words of the program are not of its form.
    Usage,
}

/// The line of words of another form.
pub const USAGE: &[u8] = b"usage: nusat [-int] [-source file] [model.smv] | nusat -gen n\n";

impl Event {
    /// Where the text is written.
    pub fn side(&self) -> Side
        ensures { result ≡ side_of self.now }
    {
        match self {
            Event::Shell(event) => event.side(),
            Event::Settings(_) | Event::Log(_) | Event::Trace(_) => Side::Output,
            Event::Refused(_) | Event::Usage => Side::Errors,
        }
    }

    /// Writes the text.
    ///
    /// # Errors
    ///
    /// `Failed` after a fault of the sink; a front of the text was written then.
    pub fn print<S: Sink>(&self, out: &mut S) -> Result<(), Failed>
        ensures { Writes (text_of self.now) (S.told out.old) result (S.told out.new) }
    {
        match self {
            Event::Shell(event) => event.print(out),
            Event::Settings(event) => event.print(out),
            Event::Log(event) => event.print(out),
            Event::Trace(event) => event.print(out),
            Event::Refused(refusal) => refusal.print(out),
            Event::Usage => put_all(out, USAGE),
        }
    }
}
