ghost use Rattle.std.specs.Prelude.{◌≡◌, ◌++◌, codes};
ghost use Rattle.outside.specs.Calls.{Writes};
ghost use Rattle.shell_world.specs.Texts.{long_text, no_value_text, refusal_number, refusal_said, refusal_text};

use crate::Phase;
use cmd_table::OptFault;
use outside::{Failed, LineFault, Sink, Text, put_all, put_numbered, put_parts};
use sat_log_text::LogFault;
use shell_lang::LangFault;
use smv_grammar::ParseFault;

/// Why a line or a command was refused.
#[derive(Debug, Drop)]
pub enum Refusal {
    /// A word of the command is wrong.
    Options(OptFault),
    /// The line, a name in it, or a change of a setting is wrong.
    Language(LangFault),
    /// No line of input was read.
    Line(LineFault),
    /// The text of the model has a fault.
    Model(ParseFault),
    /// The text of a file is no log.
    Log(LogFault),
    /// A section of a trace lacks a value: the line of the section, and the name.
    NoValue(u64, Text),
    /// A script is nested in sixteen others.
    TooDeep,
    /// No command has this name.
    NoCommand(Text),
    /// No model was read.
    NoModel,
    /// A model was read already.
    ModelIsThere,
    /// The command of this phase must come first.
    MustComeFirst(Phase),
    /// No file has this name.
    NoFile(Text),
    /// The file store failed at this file.
    FileFault(Text),
    /// The file is longer than the number of bytes that it may have.
    FileTooLong(Text, u64),
    /// There are too many lines of input.
    TooManyLines,
    /// The model or the trace is not of the form that can be run so far.
    NotBuilt,
    NoMemory,
}

// Writes that a file is longer than its limit.
fn print_long<S: Sink>(name: &[u8], limit: u64, out: &mut S) -> Result<(), Failed>
    ensures { Writes (long_text name.now limit) (S.told out.old) result (S.told out.new) }
{
    put_all(out, name)?;
    put_numbered(out, b": longer than ", limit, b" bytes")
}

/// Writes that a section of a trace lacks a value.
fn print_no_value<S: Sink>(line: u64, name: &[u8], out: &mut S) -> Result<(), Failed>
    ensures { Writes (no_value_text line name.now) (S.told out.old) result (S.told out.new) }
{
    put_numbered(out, b"line ", line, b": no value for ")?;
    put_all(out, name)
}

impl Refusal {
    /// The number that the refusal has for users.
    pub fn number(&self) -> u32
        ensures { result ≡ refusal_number self.now }
    {
        match self {
            Refusal::Options(fault) => fault.number(),
            Refusal::Language(fault) => fault.number(),
            Refusal::Line(fault) => fault.number(),
            Refusal::Model(fault) => fault.number(),
            Refusal::Log(fault) => fault.number(),
            Refusal::NoValue(_, _) => 616,
            Refusal::TooDeep => 634,
            Refusal::NoCommand(_) => 641,
            Refusal::NoModel => 642,
            Refusal::ModelIsThere => 643,
            Refusal::MustComeFirst(_) => 644,
            Refusal::NoFile(_) => 646,
            Refusal::FileFault(_) => 647,
            Refusal::FileTooLong(_, _) => 648,
            Refusal::TooManyLines => 803,
            Refusal::NotBuilt => 899,
            Refusal::NoMemory => 900,
        }
    }

    /// Writes what the refusal says to users, without its number.
    ///
    /// # Errors
    ///
    /// `Failed` after a fault of the sink; a front of the text was written then.
    pub fn print_text<S: Sink>(&self, out: &mut S) -> Result<(), Failed>
        ensures { Writes (refusal_said self.now) (S.told out.old) result (S.told out.new) }
    {
        match self {
            Refusal::Options(fault) => fault.print_text(out),
            Refusal::Language(fault) => fault.print_text(out),
            Refusal::Line(fault) => fault.print_text(out),
            Refusal::Model(fault) => fault.print_text(out),
            Refusal::Log(fault) => fault.print_text(out),
            Refusal::NoValue(line, name) => print_no_value(*line, name.as_slice(), out),
            Refusal::TooDeep => put_all(out, b"more than 16 scripts are nested"),
            Refusal::NoCommand(word) => put_parts(out, &[word.as_slice(), b" is no command"]),
            Refusal::NoModel => put_all(out, b"no model"),
            Refusal::ModelIsThere => put_all(out, b"a model is already there"),
            Refusal::MustComeFirst(phase) => put_parts(out, &[phase.word(), b" must come first"]),
            Refusal::NoFile(name) => put_parts(out, &[name.as_slice(), b": no such file"]),
            Refusal::FileFault(name) => put_parts(out, &[name.as_slice(), b": file fault"]),
            Refusal::FileTooLong(name, limit) => print_long(name.as_slice(), *limit, out),
            Refusal::TooManyLines => put_all(out, b"more than 1000000 lines"),
            Refusal::NotBuilt => put_all(out, b"not built yet"),
            Refusal::NoMemory => put_all(out, b"out of memory"),
        }
    }

    /// Writes the line of the refusal.
    ///
    /// # Errors
    ///
    /// `Failed` after a fault of the sink; a front of the text was written then.
    pub fn print<S: Sink>(&self, out: &mut S) -> Result<(), Failed>
        ensures { Writes (refusal_text self.now) (S.told out.old) result (S.told out.new) }
    {
        put_numbered(out, b"error ", u64::from(self.number()), b": ")?;
        self.print_text(out)?;
        put_all(out, b"\n")
    }
}
