ghost use Rattle.std.specs.Prelude.{◌≡◌};
ghost use Rattle.shell_world.specs.Processes.{Each};
ghost use Rattle.shell_world.specs.Scenes.{goes_along};
ghost use Rattle.shell_world.specs.Outsides.{Does};
ghost use Rattle.shell.specs.Rows.{command_of};
ghost use Rattle.shell.specs.Topics.{Helps, HelpsAll, HelpsLine, HelpsOn, HelpsWith, Leaves, NamesNoCommand, Resets, without_model};

use crate::rows::{all_words, command_of};
use cmd_table::commands;
use outside::{Text, Words};
use shell_world::{
    End, Event, Listed, Outside, Phase, Refusal, Row, ShellEvent, State, Work, read_row, refuse,
    say,
};
use std::alloc::Global;

/// The commands of the shell itself.
#[derive(Clone, Copy, Debug, PartialEq, Eq)]
pub enum ShellCommand {
    Echo,
    Help,
    Quit,
    Reset,
    Source,
}

/// All of them.
pub const SHELL_COMMANDS: [ShellCommand; 5] = [
    ShellCommand::Echo,
    ShellCommand::Help,
    ShellCommand::Quit,
    ShellCommand::Reset,
    ShellCommand::Source,
];

impl Listed for ShellCommand {
    ghost use Rattle.shell.specs.Words.{shell_help, shell_word};

    ghost word = { shell_word };

    ghost help = { shell_help };

    fn word(self) -> &'static [u8] {
        match self {
            ShellCommand::Echo => ECHO.word,
            ShellCommand::Help => HELP.word,
            ShellCommand::Quit => QUIT.word,
            ShellCommand::Reset => RESET.word,
            ShellCommand::Source => SOURCE.word,
        }
    }

    fn help(self) -> &'static [u8] {
        match self {
            ShellCommand::Echo => ECHO.help,
            ShellCommand::Help => HELP.help,
            ShellCommand::Quit => QUIT.help,
            ShellCommand::Reset => RESET.help,
            ShellCommand::Source => SOURCE.help,
        }
    }
}

pub const ECHO: Row<3> = Row {
    word: b"echo",
    help: b"echo [-2] [-n] [-o file] [words]",
    table: commands::ECHO,
    needs: Phase::Start,
};

pub const HELP: Row<0> = Row {
    word: b"help",
    help: b"help [command]",
    table: commands::HELP,
    needs: Phase::Start,
};

pub const QUIT: Row<0> = Row {
    word: b"quit",
    help: b"quit",
    table: commands::QUIT,
    needs: Phase::Start,
};

pub const RESET: Row<0> = Row {
    word: b"reset",
    help: b"reset",
    table: commands::RESET,
    needs: Phase::Start,
};

pub const SOURCE: Row<3> = Row {
    word: b"source",
    help: b"source [-p] [-s] [-x] file",
    table: commands::SOURCE,
    needs: Phase::Start,
};

// Writes a line of help.
fn help_line<W: Outside>(alloc: Global, state: &State, world: &mut W, line: &[u8]) -> End
    ensures { Does W.told (HelpsLine line.now) state.now world.old result state.now world.new }
{
    match Text::from_slice(alloc, line) {
        Ok(line) => say(state, world, Event::Shell(ShellEvent::Help(line))),
        Err(_) => refuse(state, world, Refusal::NoMemory),
    }
}

// Writes these words.
fn help_words<W: Outside>(alloc: Global, state: &State, world: &mut W, words: &[Text]) -> End
    ensures { Does W.told (Each goes_along HelpsLine words.now)
        state.now world.old result state.now world.new }
{
    for word in words {
        let end = help_line(alloc, state, world, word.as_slice());
        if !state.goes_along(end) {
            return end;
        }
    }
    End::Went
}

// Writes the words of all commands.
fn help_all<W: Outside>(alloc: Global, state: &State, world: &mut W) -> End
    ensures { Does W.told HelpsAll state.now world.old result state.now world.new }
{
    match all_words(alloc) {
        Ok(words) => help_words(alloc, state, world, words.as_slice()),
        Err(_) => refuse(state, world, Refusal::NoMemory),
    }
}

// Writes how a command is written.
fn help_on<W: Outside>(alloc: Global, state: &State, world: &mut W, word: &Text) -> End
    ensures { Does W.told (HelpsOn word.now (command_of word.now))
        state.now world.old result state.now world.new }
{
    match command_of(word.as_slice()) {
        Some(command) => help_line(alloc, state, world, command.help()),
        None => no_command(alloc, state, world, word),
    }
}

/// Refuses a word that is no command.
pub(crate) fn no_command<W: Outside>(
    alloc: Global,
    state: &State,
    world: &mut W,
    word: &Text,
) -> End
    ensures { Does W.told (NamesNoCommand word.now) state.now world.old result state.now world.new }
{
    match word.copy(alloc) {
        Ok(word) => refuse(state, world, Refusal::NoCommand(word)),
        Err(_) => refuse(state, world, Refusal::NoMemory),
    }
}

// `help` with its free words.
fn help_with<W: Outside>(alloc: Global, state: &State, world: &mut W, words: &[Text]) -> End
    ensures { Does W.told (HelpsWith words.now) state.now world.old result state.now world.new }
{
    match words {
        [] => help_all(alloc, state, world),
        [word, ..] => help_on(alloc, state, world, word),
    }
}

/// `help [command]`
pub(crate) fn do_help<W: Outside>(alloc: Global, state: &State, world: &mut W, words: &Words) -> End
    ensures { Does W.told (Helps words.now) state.now world.old result state.now world.new }
{
    match read_row(alloc, state, &HELP, words) {
        Ok(given) => help_with(alloc, state, world, given.rest.as_slice()),
        Err(refusal) => refuse(state, world, refusal),
    }
}

/// `quit`
pub(crate) fn do_quit<W: Outside>(alloc: Global, state: &State, world: &mut W, words: &Words) -> End
    ensures { Does W.told (Leaves words.now) state.now world.old result state.now world.new }
{
    match read_row(alloc, state, &QUIT, words) {
        Ok(_) => End::Quits,
        Err(refusal) => refuse(state, world, refusal),
    }
}

/// `reset`
pub(crate) fn do_reset<W: Outside>(
    alloc: Global,
    state: &mut State,
    world: &mut W,
    words: &Words,
) -> End
    ensures does { Does W.told (Resets words.now) state.old world.old result state.new world.new }
    ensures past { state.new.past ≡ state.old.past }
{
    match read_row(alloc, state, &RESET, words) {
        Ok(_) => {
            drop_model(alloc, state);
            End::Went
        }
        Err(refusal) => refuse(state, world, refusal),
    }
}

// Drops the model, and what was worked out of it.
fn drop_model(alloc: Global, state: &mut State)
    ensures { state.new ≡ without_model state.old }
{
    state.model = None;
    state.done = Phase::Start;
    state.work = Work::none(alloc);
}
