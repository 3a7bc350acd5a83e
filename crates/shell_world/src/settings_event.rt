ghost use Rattle.outside.specs.Calls.{Writes};
ghost use Rattle.shell_world.specs.SettingsTexts.{past_text, settings_text};

use outside::{Failed, Sink, Text, put_number, put_parts};

/// What the settings are.
#[derive(Debug, Drop)]
pub enum SettingsEvent {
    /// A variable with its value, or an alias with its words, which blanks part.
    Entry(Text, Text),
    /// A remembered line, after its number.
    Past(u64, Text),
}

// Writes a remembered line, after its number.
fn print_past<S: Sink>(number: u64, line: &[u8], out: &mut S) -> Result<(), Failed>
    ensures { Writes (past_text number line.now) (S.told out.old) result (S.told out.new) }
{
    put_number(out, number)?;
    put_parts(out, &[b"\t", line, b"\n"])
}

impl SettingsEvent {
    /// Writes the text.
    ///
    /// # Errors
    ///
    /// `Failed` after a fault of the sink; a front of the text was written then.
    pub fn print<S: Sink>(&self, out: &mut S) -> Result<(), Failed>
        ensures { Writes (settings_text self.now) (S.told out.old) result (S.told out.new) }
    {
        match self {
            SettingsEvent::Entry(name, value) => {
                put_parts(out, &[name.as_slice(), b" = ", value.as_slice(), b"\n"])
            }
            SettingsEvent::Past(number, line) => print_past(*number, line.as_slice(), out),
        }
    }
}
