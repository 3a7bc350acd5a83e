ghost use Rattle.std.specs.Prelude.{◌≡◌, IfOk, Some};
ghost use Rattle.shell.specs.declared.rows.Command.{Command};
ghost use Rattle.shell.specs.Called.{word_of};
ghost use Rattle.shell.specs.Rows.{AreListed, command_of};

use crate::topics::{SHELL_COMMANDS, ShellCommand};
use outside::Text;
use shell_model::{
    LOG_COMMANDS, LogCommand, MODEL_COMMANDS, ModelCommand, TRACE_COMMANDS, TraceCommand,
};
use shell_settings::{SETTINGS_COMMANDS, SettingsCommand};
use shell_world::{Listed, find_word, put_words};
use std::alloc::{AllocError, Global};

/// A command, by its topic.
#[derive(Clone, Copy, Debug, PartialEq, Eq)]
pub enum Command {
    Settings(SettingsCommand),
    Model(ModelCommand),
    Trace(TraceCommand),
    Log(LogCommand),
    Shell(ShellCommand),
}

impl Listed for Command {
    ghost use Rattle.shell.specs.Called.{word_of};
    ghost use Rattle.shell.specs.Rows.{help_of};

    ghost word = { word_of };

    ghost help = { help_of };

    fn word(self) -> &'static [u8] {
        match self {
            Command::Settings(command) => command.word(),
            Command::Model(command) => command.word(),
            Command::Trace(command) => command.word(),
            Command::Log(command) => command.word(),
            Command::Shell(command) => command.word(),
        }
    }

    fn help(self) -> &'static [u8] {
        match self {
            Command::Settings(command) => command.help(),
            Command::Model(command) => command.help(),
            Command::Trace(command) => command.help(),
            Command::Log(command) => command.help(),
            Command::Shell(command) => command.help(),
        }
    }
}

/// The command of a word.
pub(crate) fn command_of(word: &[u8]) -> Option<Command>
    ensures { result ≡ command_of word.now }
{
    if let Some(command) = find_word(&SETTINGS_COMMANDS, word) {
        return Some(Command::Settings(command));
    }
    if let Some(command) = find_word(&MODEL_COMMANDS, word) {
        return Some(Command::Model(command));
    }
    if let Some(command) = find_word(&TRACE_COMMANDS, word) {
        return Some(Command::Trace(command));
    }
    if let Some(command) = find_word(&LOG_COMMANDS, word) {
        return Some(Command::Log(command));
    }
    if let Some(command) = find_word(&SHELL_COMMANDS, word) {
        return Some(Command::Shell(command));
    }
    None
}

/// The words of all commands, in the order of their bytes.
///
/// # Errors
///
/// `AllocError` where memory is refused.
pub(crate) fn all_words(alloc: Global) -> Result<Vec<Text>, AllocError>
    ensures { IfOk result (λ words. AreListed words.items) }
{
    let mut words = Vec::new(alloc);
    put_words(alloc, &mut words, &SETTINGS_COMMANDS)?;
    put_words(alloc, &mut words, &MODEL_COMMANDS)?;
    put_words(alloc, &mut words, &TRACE_COMMANDS)?;
    put_words(alloc, &mut words, &LOG_COMMANDS)?;
    put_words(alloc, &mut words, &SHELL_COMMANDS)?;
    words.sort()?;
    Ok(words)
}

/// Each command is found by its word, so no two have one word.
pub fn commands_are_listed()
    ensures { (c : Command) → command_of (word_of c) ≡ Some c }
{}
