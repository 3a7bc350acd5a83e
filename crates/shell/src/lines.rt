//! What a line does: its commands, and in them the lines of scripts.
ghost use Rattle.std.specs.Prelude.{◌≡◌, IfOk, Ok};
ghost use Rattle.shell_world.specs.Processes.{Each};
ghost use Rattle.shell_world.specs.Scenes.{goes_along};
ghost use Rattle.shell_world.specs.Outsides.{Does};
ghost use Rattle.shell.specs.Lines.{DoesAny, DoesCommand, DoesLine, DoesNamed, DoesScriptLine, DoesScriptLines, DoesShell, DoesSource, DoesWords, LacksScript, ShowsScriptLine, Sourcing, given_script};
ghost use Rattle.shell.specs.Rows.{command_of};
ghost use Rattle.shell.specs.Stepping.{RefusesLine};

use crate::echo::do_echo;
use crate::rows::{Command, command_of};
use crate::script::Script;
use crate::topics::{SOURCE, ShellCommand, do_help, do_quit, do_reset, no_command};
use cmd_table::Given;
use outside::{FileFault, Text, Words};
use shell_lang::{Command as Pieces, LangFault, expand, split_line};
use shell_model::{do_log, do_model, do_trace};
use shell_settings::do_settings;
use shell_world::{
    End, Event, Outside, Refusal, ShellEvent, State, lack_memory, read_file, read_row, refuse,
    refuse_file, say, say_if,
};
use std::alloc::{AllocError, Global};
use text_lines::first_line;

// The places of the options of `source` in their row.
const PROMPTS: usize = 0;

const LENIENT: usize = 1;

const SHOWS: usize = 2;

/// A script has at most so many bytes.
const SCRIPT_LIMIT: usize = 4_194_304;

/// Refuses a line, or ends the session for want of memory.
pub(crate) fn refuse_line<W: Outside>(state: &State, world: &mut W, fault: LangFault) -> End
    ensures { Does W.told (RefusesLine fault) state.now world.old result state.now world.new }
{
    match fault {
        LangFault::NoMemory(_) => lack_memory(state, world),
        _ => refuse(state, world, Refusal::Language(fault)),
    }
}

/// Does what a line asks for, where so many scripts may be nested in it.
#[cycle(lines)]
pub(crate) fn do_line<W: Outside>(
    alloc: Global,
    state: &mut State,
    world: &mut W,
    depth: u32,
    line: &Text,
) -> End
    ensures does { Does W.told (DoesLine depth line.now)
        state.old world.old result state.new world.new }
    ensures past { state.new.past ≡ state.old.past }
{
    match split_line(alloc, line) {
        Ok(commands) => do_commands(alloc, state, world, depth, commands.as_slice()),
        Err(fault) => refuse_line(state, world, fault),
    }
}

// The commands of a line, up to the first that does not go well.
#[cycle(lines)]
fn do_commands<W: Outside>(
    alloc: Global,
    state: &mut State,
    world: &mut W,
    depth: u32,
    commands: &[Pieces],
) -> End
    ensures does { Does W.told (Each goes_along (DoesCommand (Sourcing depth)) commands.now)
        state.old world.old result state.new world.new }
    ensures past { state.new.past ≡ state.old.past }
{
    for command in commands {
        let end = do_command(alloc, state, world, depth, command);
        if !state.goes_along(end) {
            return end;
        }
    }
    End::Went
}

// A command, whose variables and aliases are replaced first.
#[cycle(lines)]
fn do_command<W: Outside>(
    alloc: Global,
    state: &mut State,
    world: &mut W,
    depth: u32,
    command: &Pieces,
) -> End
    ensures does { Does W.told (DoesCommand (Sourcing depth) command.now)
        state.old world.old result state.new world.new }
    ensures past { state.new.past ≡ state.old.past }
{
    match expand(alloc, command, &state.vars, &state.aliases) {
        Ok(words) => do_words(alloc, state, world, depth, words),
        Err(fault) => refuse(state, world, Refusal::Language(fault)),
    }
}

// The words of a command, which may be none.
#[cycle(lines)]
fn do_words<W: Outside>(
    alloc: Global,
    state: &mut State,
    world: &mut W,
    depth: u32,
    words: Words,
) -> End
    ensures does { Does W.told (DoesWords (Sourcing depth) (Ok words))
        state.old world.old result state.new world.new }
    ensures past { state.new.past ≡ state.old.past }
{
    let mut texts = words.into_vec();
    if texts.is_empty() {
        return End::Went;
    }
    let word = texts.remove(0);
    let words = Words::from_vec(texts);
    do_any(alloc, state, world, depth, &word, &words)
}

// A word with the words behind it.
#[cycle(lines)]
fn do_any<W: Outside>(
    alloc: Global,
    state: &mut State,
    world: &mut W,
    depth: u32,
    word: &Text,
    words: &Words,
) -> End
    ensures does { Does W.told (DoesAny (Sourcing depth) (command_of word.now) word.now words.now)
        state.old world.old result state.new world.new }
    ensures past { state.new.past ≡ state.old.past }
{
    match command_of(word.as_slice()) {
        Some(command) => do_named(alloc, state, world, depth, command, words),
        None => no_command(alloc, state, world, word),
    }
}

// A command by its topic.
#[cycle(lines)]
fn do_named<W: Outside>(
    alloc: Global,
    state: &mut State,
    world: &mut W,
    depth: u32,
    command: Command,
    words: &Words,
) -> End
    ensures does { Does W.told (DoesNamed (Sourcing depth) command words.now)
        state.old world.old result state.new world.new }
    ensures past { state.new.past ≡ state.old.past }
{
    match command {
        Command::Settings(command) => do_settings(alloc, state, world, command, words),
        Command::Model(command) => do_model(alloc, state, world, command, words),
        Command::Trace(command) => do_trace(alloc, state, world, command, words),
        Command::Log(command) => do_log(alloc, state, world, command, words),
        Command::Shell(command) => do_shell(alloc, state, world, depth, command, words),
    }
}

// A command of the shell itself.
#[cycle(lines)]
fn do_shell<W: Outside>(
    alloc: Global,
    state: &mut State,
    world: &mut W,
    depth: u32,
    command: ShellCommand,
    words: &Words,
) -> End
    ensures does { Does W.told (DoesShell (Sourcing depth) command words.now)
        state.old world.old result state.new world.new }
    ensures past { state.new.past ≡ state.old.past }
{
    match command {
        ShellCommand::Echo => do_echo(alloc, state, world, words),
        ShellCommand::Help => do_help(alloc, state, world, words),
        ShellCommand::Quit => do_quit(alloc, state, world, words),
        ShellCommand::Reset => do_reset(alloc, state, world, words),
        ShellCommand::Source => do_source(alloc, state, world, depth, words),
    }
}

// `source [-p] [-s] [-x] file`
#[cycle(lines)]
fn do_source<W: Outside>(
    alloc: Global,
    state: &mut State,
    world: &mut W,
    depth: u32,
    words: &Words,
) -> End
    ensures does { Does W.told (DoesSource (Sourcing depth) words.now)
        state.old world.old result state.new world.new }
    ensures past { state.new.past ≡ state.old.past }
{
    let given = match read_row(alloc, state, &SOURCE, words) {
        Ok(given) => given,
        Err(refusal) => return refuse(state, world, refusal),
    };
    let script = match script_given(alloc, &given) {
        Ok(script) => script,
        Err(_) => return refuse(state, world, Refusal::NoMemory),
    };
    match script {
        Some(script) => do_script(alloc, state, world, depth, &script),
        None => End::Went,
    }
}

// The script that the words of `source` name.
fn script_given(alloc: Global, given: &Given) -> Result<Option<Script>, AllocError>
    ensures { IfOk result (λ script. script ≡ given_script given.now) }
{
    match given.rest.as_slice().first() {
        Some(file) => Ok(Some(Script {
            file: file.copy(alloc)?,
            prompts: given.values.get(PROMPTS).is_some(),
            lenient: given.values.get(LENIENT).is_some(),
            shows: given.values.get(SHOWS).is_some(),
        })),
        None => Ok(None),
    }
}

/// Does the lines of a script, where so many more may be nested.
#[cycle(lines)]
pub(crate) fn do_script<W: Outside>(
    alloc: Global,
    state: &mut State,
    world: &mut W,
    depth: u32,
    script: &Script,
) -> End
    ensures does { Does W.told (Sourcing depth script.now)
        state.old world.old result state.new world.new }
    ensures past { state.new.past ≡ state.old.past }
{
    if depth == 0 {
        return refuse(state, world, Refusal::TooDeep);
    }
    match read_file(alloc, world, SCRIPT_LIMIT, &script.file) {
        Ok(text) => do_script_lines(alloc, state, world, depth - 1, script, text.as_slice()),
        Err(fault) => lack_script(alloc, state, world, script, fault),
    }
}

// The lines of a script, as long as the session goes on.
#[cycle(lines)]
fn do_script_lines<W: Outside>(
    alloc: Global,
    state: &mut State,
    world: &mut W,
    depth: u32,
    script: &Script,
    text: &[u8],
) -> End
    ensures does { Does W.told (DoesScriptLines (DoesLine depth) script.now text.now)
        state.old world.old result state.new world.new }
    ensures past { state.new.past ≡ state.old.past }
{
    let mut rest = text;
    while !rest.is_empty() {
        let (line, behind) = first_line(rest);
        let end = do_script_line(alloc, state, world, depth, script, line);
        if !state.goes_on(end) {
            return end;
        }
        rest = behind;
    }
    End::Went
}

// A line of a script.
#[cycle(lines)]
fn do_script_line<W: Outside>(
    alloc: Global,
    state: &mut State,
    world: &mut W,
    depth: u32,
    script: &Script,
    line: &[u8],
) -> End
    ensures does { Does W.told (DoesScriptLine (DoesLine depth) script.now line.now)
        state.old world.old result state.new world.new }
    ensures past { state.new.past ≡ state.old.past }
{
    let end = say_if(
        state,
        world,
        script.prompts,
        Event::Shell(ShellEvent::Prompt),
    );
    if !state.goes_along(end) {
        return end;
    }
    let end = show_line(alloc, state, world, script.shows, line);
    if !state.goes_along(end) {
        return end;
    }
    match Text::from_slice(alloc, line) {
        Ok(line) => do_line(alloc, state, world, depth, &line),
        Err(_) => lack_memory(state, world),
    }
}

// Writes a line of a script before it is done, if that is wanted.
fn show_line<W: Outside>(
    alloc: Global,
    state: &State,
    world: &mut W,
    shows: bool,
    line: &[u8],
) -> End
    ensures { Does W.told (ShowsScriptLine shows line.now)
        state.now world.old result state.now world.new }
{
    if !shows {
        return End::Went;
    }
    match Text::from_slice(alloc, line) {
        Ok(line) => say(state, world, Event::Shell(ShellEvent::Line(line))),
        Err(_) => refuse(state, world, Refusal::NoMemory),
    }
}

// Refuses a script that was not read, unless it need not be there.
fn lack_script<W: Outside>(
    alloc: Global,
    state: &State,
    world: &mut W,
    script: &Script,
    fault: FileFault,
) -> End
    ensures { Does W.told (LacksScript script.now fault)
        state.now world.old result state.now world.new }
{
    match fault {
        FileFault::NotThere if script.lenient => End::Went,
        _ => refuse_file(alloc, state, world, SCRIPT_LIMIT, &script.file, fault),
    }
}
