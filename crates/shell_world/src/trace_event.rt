ghost use Rattle.outside.specs.Calls.{Writes};
ghost use Rattle.shell_world.specs.TraceTexts.{at_text, cause_line, cause_text, stop_text, trace_text};

use bool_replay::Cause;
use outside::{Failed, Sink, put_all, put_number, put_numbered};
use smv_tree::Place;

/// What is said of a trace.
#[derive(Debug, Drop)]
pub enum TraceEvent {
    /// It is a run of so many states.
    Executed(u64),
    /// It is no run: the state, from 1, at which its replay stops, and the cause.
    Stops(u64, Cause),
}

/// Writes a word, and a place behind it.
fn print_at<S: Sink>(word: &[u8], place: Place, out: &mut S) -> Result<(), Failed>
    ensures { Writes (at_text word.now place) (S.told out.old) result (S.told out.new) }
{
    put_numbered(out, word, place.line as u64, b":")?;
    put_number(out, place.column as u64)
}

/// Writes which constraint a cause is.
fn print_cause<S: Sink>(cause: Cause, out: &mut S) -> Result<(), Failed>
    ensures { Writes (cause_text cause) (S.told out.old) result (S.told out.new) }
{
    match cause {
        Cause::Init(place) => print_at(b"INIT at ", place, out),
        Cause::Trans(place) => print_at(b"TRANS at ", place, out),
    }
}

/// Writes which constraint a cause is, and a line end.
fn print_cause_line<S: Sink>(cause: Cause, out: &mut S) -> Result<(), Failed>
    ensures { Writes (cause_line cause) (S.told out.old) result (S.told out.new) }
{
    print_cause(cause, out)?;
    put_all(out, b"\n")
}

/// Writes where a trace stops.
fn print_stop<S: Sink>(number: u64, cause: Cause, out: &mut S) -> Result<(), Failed>
    ensures { Writes (stop_text number cause) (S.told out.old) result (S.told out.new) }
{
    put_numbered(out, b"-- the trace stops at state ", number, b": ")?;
    print_cause_line(cause, out)
}

impl TraceEvent {
    /// Writes the text.
    ///
    /// # Errors
    ///
    /// `Failed` after a fault of the sink; a front of the text was written then.
    pub fn print<S: Sink>(&self, out: &mut S) -> Result<(), Failed>
        ensures { Writes (trace_text self.now) (S.told out.old) result (S.told out.new) }
    {
        match self {
            TraceEvent::Executed(count) => {
                put_numbered(out, b"-- the trace is executed, states: ", *count, b"\n")
            }
            TraceEvent::Stops(number, cause) => print_stop(*number, *cause, out),
        }
    }
}
