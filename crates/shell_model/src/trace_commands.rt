//! The topic of traces.
ghost use Rattle.std.specs.Prelude.{◌≡◌, ◌≤◌, false, length, Some};
ghost use Rattle.shell_world.specs.Processes.{Becomes, MayLack, Then};
ghost use Rattle.shell_world.specs.Steps.{WithFirst};
ghost use Rattle.shell_world.specs.Outsides.{Does};
ghost use Rattle.shell_model.specs.ModelCommands.{input_file, with_model};
ghost use Rattle.shell_model.specs.TraceCommands.{DoesExecute, DoesTrace, Executes, ExecutesFrom, ExecutesOnText, JudgesFile, JudgesText, TellsVerdict, has_changes};

use crate::model_commands::{MODEL_LIMIT, model_refusal, take_model};
use bool_replay::{BoolModel, Verdict};
use cmd_table::{Given, commands};
use outside::{Text, Words};
use shell_world::{
    End, Event, Listed, Outside, Phase, Refusal, Row, State, TraceEvent, copy_of, read_file,
    read_row, refuse, refuse_file, say,
};
use std::alloc::{AllocError, Global};

/// The commands of traces.
#[derive(Clone, Copy, Debug, PartialEq, Eq)]
pub enum TraceCommand {
    ExecuteTextTrace,
}

/// All of them.
pub const TRACE_COMMANDS: [TraceCommand; 1] = [TraceCommand::ExecuteTextTrace];

impl Listed for TraceCommand {
    ghost use Rattle.shell_model.specs.TraceCommands.{trace_help, trace_word};

    ghost word = { trace_word };

    ghost help = { trace_help };

    fn word(self) -> &'static [u8] {
        match self {
            TraceCommand::ExecuteTextTrace => EXECUTE_TEXT_TRACE.word,
        }
    }

    fn help(self) -> &'static [u8] {
        match self {
            TraceCommand::ExecuteTextTrace => EXECUTE_TEXT_TRACE.help,
        }
    }
}

/// `execute_text_trace [-c] file`, which reads the model itself where there is none
pub const EXECUTE_TEXT_TRACE: Row<1> = Row {
    word: b"execute_text_trace",
    help: b"execute_text_trace [-c] file",
    table: commands::EXECUTE_TEXT_TRACE,
    needs: Phase::Start,
};

// The place of `-c` among its options.
const CHANGES: usize = 0;

/// A trace has at most so many bytes.
const TRACE_LIMIT: usize = 4_194_304;

/// Says what a trace is.
fn tell_verdict<W: Outside>(state: &State, world: &mut W, verdict: Verdict) -> End
    ensures { Does W.told (TellsVerdict verdict) state.now world.old result state.now world.new }
{
    match verdict {
        Verdict::Executed(count) => say(state, world, Event::Trace(TraceEvent::Executed(count))),
        Verdict::Stops(number, cause) => {
            say(state, world, Event::Trace(TraceEvent::Stops(number, cause)))
        }
        Verdict::NoValue(line, name) => refuse(state, world, Refusal::NoValue(line, name)),
        Verdict::NotBuilt => refuse(state, world, Refusal::NotBuilt),
    }
}

/// Says what the text of a trace is that states whole states.
fn judge_whole<W: Outside>(
    alloc: Global,
    state: &State,
    world: &mut W,
    model: &BoolModel,
    text: &[u8],
) -> End
    requires { length text.now ≤ 4194304 }
    ensures { Does W.told (JudgesText false model.now text.now)
        state.now world.old result state.now world.new }
{
    match model.judge(alloc, text) {
        Ok(verdict) => tell_verdict(state, world, verdict),
        Err(AllocError) => refuse(state, world, Refusal::NoMemory),
    }
}

/// Says what the text of a trace is, which may have changes alone.
fn judge_text<W: Outside>(
    alloc: Global,
    state: &State,
    world: &mut W,
    changes: bool,
    model: &BoolModel,
    text: &[u8],
) -> End
    requires { length text.now ≤ 4194304 }
    ensures { Does W.told (JudgesText changes model.now text.now)
        state.now world.old result state.now world.new }
{
    if changes {
        refuse(state, world, Refusal::NotBuilt)
    } else {
        judge_whole(alloc, state, world, model, text)
    }
}

/// Says what the trace in a file is.
fn judge_file<W: Outside>(
    alloc: Global,
    state: &State,
    world: &mut W,
    changes: bool,
    model: &BoolModel,
    name: &Text,
) -> End
    ensures { Does W.told (JudgesFile changes model.now name.now)
        state.now world.old result state.now world.new }
{
    match read_file(alloc, world, TRACE_LIMIT, name) {
        Ok(text) => judge_text(alloc, state, world, changes, model, text.as_slice()),
        Err(fault) => refuse_file(alloc, state, world, TRACE_LIMIT, name, fault),
    }
}

/// Executes a trace on a model that was read for it, and keeps the model unless the trace is
/// refused.
fn execute_on<W: Outside>(
    alloc: Global,
    state: &mut State,
    world: &mut W,
    changes: bool,
    name: &Text,
    model: BoolModel,
) -> End
    ensures { Does W.told (Then (JudgesFile changes model name.now) (Becomes (with_model model)))
        state.old world.old result state.new world.new }
{
    let end = judge_file(alloc, state, world, changes, &model, name);
    if !state.goes_along(end) {
        return end;
    }
    take_model(alloc, state, model);
    End::Went
}

/// Executes a trace on the model that a text is.
fn execute_on_text<W: Outside>(
    alloc: Global,
    state: &mut State,
    world: &mut W,
    changes: bool,
    name: &Text,
    text: &[u8],
) -> End
    requires { length text.now ≤ 4194304 }
    ensures { Does W.told (ExecutesOnText changes name.now text.now)
        state.old world.old result state.new world.new }
{
    match BoolModel::read(alloc, text) {
        Ok(model) => execute_on(alloc, state, world, changes, name, model),
        Err(fault) => refuse(state, world, model_refusal(fault)),
    }
}

/// Executes a trace on the model of a file.
fn execute_from<W: Outside>(
    alloc: Global,
    state: &mut State,
    world: &mut W,
    changes: bool,
    name: &Text,
    file: &Text,
) -> End
    ensures { Does W.told (ExecutesFrom changes name.now (Some file.now))
        state.old world.old result state.new world.new }
{
    match read_file(alloc, world, MODEL_LIMIT, file) {
        Ok(text) => execute_on_text(alloc, state, world, changes, name, text.as_slice()),
        Err(fault) => refuse_file(alloc, state, world, MODEL_LIMIT, file, fault),
    }
}

/// Executes a trace on the model of the file that is named.
fn execute_on_named<W: Outside>(
    alloc: Global,
    state: &mut State,
    world: &mut W,
    changes: bool,
    name: &Text,
    file: Option<Text>,
) -> End
    ensures { Does W.told (ExecutesFrom changes name.now file)
        state.old world.old result state.new world.new }
{
    match file {
        Some(file) => execute_from(alloc, state, world, changes, name, &file),
        None => refuse(state, world, Refusal::NoModel),
    }
}

/// Executes a trace on the model of the variable's file.
fn execute_named<W: Outside>(
    alloc: Global,
    state: &mut State,
    world: &mut W,
    changes: bool,
    name: &Text,
) -> End
    ensures { Does W.told (MayLack (ExecutesFrom changes name.now (input_file state.old)))
        state.old world.old result state.new world.new }
{
    match copy_of(alloc, state.vars.input_file()) {
        Ok(file) => execute_on_named(alloc, state, world, changes, name, file),
        Err(AllocError) => refuse(state, world, Refusal::NoMemory),
    }
}

/// Executes a trace on the model that is kept, or else on the one of the variable's file.
fn execute<W: Outside>(
    alloc: Global,
    state: &mut State,
    world: &mut W,
    changes: bool,
    name: &Text,
) -> End
    ensures { Does W.told (Executes changes name.now)
        state.old world.old result state.new world.new }
{
    match &state.model {
        Some(model) => judge_file(alloc, state, world, changes, model, name),
        None => execute_named(alloc, state, world, changes, name),
    }
}

/// Executes the trace in the first of these files.
fn execute_first<W: Outside>(
    alloc: Global,
    state: &mut State,
    world: &mut W,
    changes: bool,
    names: &[Text],
) -> End
    ensures { Does W.told (WithFirst (Executes changes) names.now)
        state.old world.old result state.new world.new }
{
    match names {
        [] => End::Went,
        [name, ..] => execute(alloc, state, world, changes, name),
    }
}

/// Whether the trace has changes alone.
fn has_changes(given: &Given) -> bool
    ensures { result ≡ has_changes given.now }
{
    given.values.get(CHANGES).is_some()
}

/// Executes a trace, by the options.
fn execute_by<W: Outside>(alloc: Global, state: &mut State, world: &mut W, given: &Given) -> End
    ensures { Does W.told (WithFirst (Executes (has_changes given.now)) given.now.rest)
        state.old world.old result state.new world.new }
{
    let changes = has_changes(given);
    execute_first(alloc, state, world, changes, given.rest.as_slice())
}

// `execute_text_trace [-c] file`
fn do_execute_text_trace<W: Outside>(
    alloc: Global,
    state: &mut State,
    world: &mut W,
    words: &Words,
) -> End
    ensures { Does W.told (DoesExecute words.now) state.old world.old result state.new world.new }
{
    match read_row(alloc, state, &EXECUTE_TEXT_TRACE, words) {
        Ok(given) => execute_by(alloc, state, world, &given),
        Err(refusal) => refuse(state, world, refusal),
    }
}

/// Does a command of traces. The remembered lines stay as they were.
pub fn do_trace<W: Outside>(
    alloc: Global,
    state: &mut State,
    world: &mut W,
    command: TraceCommand,
    words: &Words,
) -> End
    ensures does { Does W.told (DoesTrace command words.now)
        state.old world.old result state.new world.new }
    ensures past { state.new.past ≡ state.old.past }
{
    match command {
        TraceCommand::ExecuteTextTrace => do_execute_text_trace(alloc, state, world, words),
    }
}
