//! The topic of the log.
ghost use Rattle.std.specs.Prelude.{◌⊎◌, IfOk, IfErr, Ok};
ghost use Rattle.sat_log_text.specs.Answers.{IsNoMemory};
ghost use Rattle.sat_log_text.specs.TextFault.{HasFault};
ghost use Rattle.shell_world.specs.Steps.{WithFirst};
ghost use Rattle.shell_world.specs.Outsides.{Does};
ghost use Rattle.shell_model.specs.LogCommands.{ChecksFile, ChecksText, DoesCheckLog, DoesLog, IsChecked};

use cmd_table::commands;
use outside::{Text, Words};
use sat_log_text::{LogFault, read_text};
use shell_world::{
    End, Event, Listed, LogEvent, Outside, Phase, Refusal, Row, State, read_file, read_row, refuse,
    refuse_file, say,
};
use std::alloc::Global;

/// The commands of the log.
#[derive(Clone, Copy, Debug, PartialEq, Eq)]
pub enum LogCommand {
    CheckLog,
}

/// All of them.
pub const LOG_COMMANDS: [LogCommand; 1] = [LogCommand::CheckLog];

impl Listed for LogCommand {
    ghost use Rattle.shell_model.specs.LogCommands.{log_help, log_word};

    ghost word = { log_word };

    ghost help = { log_help };

    fn word(self) -> &'static [u8] {
        match self {
            LogCommand::CheckLog => CHECK_LOG.word,
        }
    }

    fn help(self) -> &'static [u8] {
        match self {
            LogCommand::CheckLog => CHECK_LOG.help,
        }
    }
}

/// `check_log file`
pub const CHECK_LOG: Row<0> = Row {
    word: b"check_log",
    help: b"check_log file",
    table: commands::CHECK_LOG,
    needs: Phase::Start,
};

/// A log has at most so many bytes.
const LOG_LIMIT: usize = 268_435_456;

/// What a text is: a log, or its first fault.
fn check(alloc: Global, text: &[u8]) -> Result<LogEvent, LogFault>
    ensures checked { IfOk result (λ said. IsChecked text.now (Ok said)) }
    ensures refused { IfErr result (λ fault. IsNoMemory fault ⊎ HasFault text.now fault) }
{
    match read_text(alloc, text) {
        Ok(log) => {
            let originals = log.count_originals();
            let others = log.count().saturating_sub(originals);
            Ok(LogEvent { originals, others })
        }
        Err(fault) => Err(fault),
    }
}

/// Says what a text is.
fn check_text<W: Outside>(alloc: Global, state: &State, world: &mut W, text: &[u8]) -> End
    ensures { Does W.told (ChecksText text.now) state.now world.old result state.now world.new }
{
    match check(alloc, text) {
        Ok(said) => say(state, world, Event::Log(said)),
        Err(fault) => refuse(state, world, Refusal::Log(fault)),
    }
}

/// Checks the log in a file.
fn check_file<W: Outside>(alloc: Global, state: &State, world: &mut W, name: &Text) -> End
    ensures { Does W.told (ChecksFile name.now) state.now world.old result state.now world.new }
{
    match read_file(alloc, world, LOG_LIMIT, name) {
        Ok(text) => check_text(alloc, state, world, text.as_slice()),
        Err(fault) => refuse_file(alloc, state, world, LOG_LIMIT, name, fault),
    }
}

/// Checks the log in the first of these files.
fn check_first<W: Outside>(alloc: Global, state: &State, world: &mut W, names: &[Text]) -> End
    ensures { Does W.told (WithFirst ChecksFile names.now)
        state.now world.old result state.now world.new }
{
    match names {
        [] => End::Went,
        [name, ..] => check_file(alloc, state, world, name),
    }
}

// `check_log file`
fn do_check_log<W: Outside>(alloc: Global, state: &State, world: &mut W, words: &Words) -> End
    ensures { Does W.told (DoesCheckLog words.now) state.now world.old result state.now world.new }
{
    match read_row(alloc, state, &CHECK_LOG, words) {
        Ok(given) => check_first(alloc, state, world, given.rest.as_slice()),
        Err(refusal) => refuse(state, world, refusal),
    }
}

/// Does a command of the log.
pub fn do_log<W: Outside>(
    alloc: Global,
    state: &State,
    world: &mut W,
    command: LogCommand,
    words: &Words,
) -> End
    ensures { Does W.told (DoesLog command words.now)
        state.now world.old result state.now world.new }
{
    match command {
        LogCommand::CheckLog => do_check_log(alloc, state, world, words),
    }
}
