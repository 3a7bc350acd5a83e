ghost use Rattle.std.specs.Prelude.{◌≡◌};
ghost use Rattle.outside.specs.Calls.{Writes};
ghost use Rattle.shell_world.specs.ShellTexts.{shell_side, shell_text};

use crate::Side;
use outside::{Failed, Sink, Text, put_all, put_parts};

/// What the shell itself tells.
#[derive(Debug, Drop)]
pub enum ShellEvent {
    /// A text that was to be written.
    Echo(Side, Text),
    /// A line of `help`.
    Help(Text),
    /// A line is awaited.
    Prompt,
    /// A line of a script, before it is done.
    Line(Text),
}

impl ShellEvent {
    /// Where the text is written.
    pub fn side(&self) -> Side
        ensures { result ≡ shell_side self.now }
    {
        match self {
            ShellEvent::Echo(side, _) => *side,
            ShellEvent::Help(_) | ShellEvent::Prompt | ShellEvent::Line(_) => Side::Output,
        }
    }

    /// Writes the text.
    ///
    /// # Errors
    ///
    /// `Failed` after a fault of the sink; a front of the text was written then.
    pub fn print<S: Sink>(&self, out: &mut S) -> Result<(), Failed>
        ensures { Writes (shell_text self.now) (S.told out.old) result (S.told out.new) }
    {
        match self {
            ShellEvent::Echo(_, text) => put_all(out, text.as_slice()),
            ShellEvent::Help(text) => put_parts(out, &[text.as_slice(), b"\n"]),
            ShellEvent::Prompt => put_all(out, b"NuSMV > "),
            ShellEvent::Line(line) => put_parts(out, &[line.as_slice(), b"\n"]),
        }
    }
}
