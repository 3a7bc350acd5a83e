ghost use Rattle.std.specs.Prelude.{◌≡◌, ◌+◌, ◌≤◌, false, option_copied, IfOk, OnErr, OnOk};
ghost use Rattle.shell_world.specs.declared.end.Next.TheVariants.{Stop};
ghost use Rattle.shell_world.specs.declared.state.State.{State};
ghost use Rattle.shell_world.specs.Scenes.{after, goes_on};
ghost use Rattle.shell_world.specs.Outsides.{Does};
ghost use Rattle.shell.specs.AskedViews.{asked_of};
ghost use Rattle.shell.specs.Closing.{Closes, told_of};
ghost use Rattle.shell.specs.Sound.{IsSoundStatus, sound_objects};
ghost use Rattle.shell.specs.Sessions.{Fails, Session as SessionOf, SessionAsked, Starts, Treats, Turn, Turns, naming};

use crate::asked::{Wanted, wanted_by};
use crate::input::{DEPTH, do_input};
use crate::laws::sound_sessions_end_well;
use crate::lines::do_script;
use crate::script::Script;
use outside::{
    Files, Line, LineFault, NullSink, Sink, SoundFiles, SoundSource, Source, Text, Words,
};
use shell_world::{
    End, Event, Outside, Refusal, ShellEvent, State, World, copy_of, end_saying, lack_memory,
    read_line, say_if, tell_event,
};
use std::alloc::{AllocError, Global};
use std::sync::ledger::Ledger;
use step_count::Steps;

/// A line of input has at most so many bytes.
const LINE_LIMIT: usize = 65_536;

/// A session has at most so many lines of input.
const LINES: u64 = 1_000_000;

// Ends the session because no line was read.
fn fail<W: Outside>(state: &State, world: &mut W, fault: LineFault) -> End
    ensures { Does W.told (Fails fault) state.now world.old result state.now world.new }
{
    match fault {
        LineFault::NoMemory(_) => lack_memory(state, world),
        _ => {
            let event = Event::Refused(Refusal::Line(fault));
            end_saying(state, world, event, End::InputFailed)
        }
    }
}

// What is done about what was read, after so many lines.
fn treat<W: Outside>(
    alloc: Global,
    state: &mut State,
    world: &mut W,
    count: u64,
    read: Result<Line, LineFault>,
) -> End
    requires count { state.old.past.count ≤ count }
    requires most { count ≤ 1000000 }
    ensures does { Does W.told (Treats count read) state.old world.old result state.new world.new }
    ensures count { state.new.past.count ≤ count + 1 }
    ensures last { count ≡ 1000000 → goes_on state.new result ≡ false }
{
    match read {
        Ok(Line::End) => End::Quits,
        Ok(Line::Line(line)) => {
            if count == LINES {
                let event = Event::Refused(Refusal::TooManyLines);
                return end_saying(state, world, event, End::InputFailed);
            }
            do_input(alloc, state, world, &line)
        }
        Err(fault) => fail(state, world, fault),
    }
}

// The next line of input is read and treated, after so many others.
fn turn<W: Outside>(
    alloc: Global,
    state: &mut State,
    world: &mut W,
    prompts: bool,
    count: u64,
) -> End
    requires count { state.old.past.count ≤ count }
    requires most { count ≤ 1000000 }
    ensures does { Does W.told (Turn prompts count) state.old world.old result state.new world.new }
    ensures count { state.new.past.count ≤ count + 1 }
    ensures last { count ≡ 1000000 → goes_on state.new result ≡ false }
{
    let end = say_if(state, world, prompts, Event::Shell(ShellEvent::Prompt));
    if !state.goes_along(end) {
        return end;
    }
    let read = read_line(alloc, world, LINE_LIMIT);
    treat(alloc, state, world, count, read)
}

// The lines of the input, up to the one that ends the session.
fn do_turns<W: Outside>(alloc: Global, state: &mut State, world: &mut W, prompts: bool) -> End
    requires { state.old.past.count ≡ 0 }
    ensures does { Does W.told (Turns prompts 0) state.old world.old result state.new world.new }
    ensures over { goes_on state.new result ≡ false }
{
    let mut count = 0;
    loop {
        let end = turn(alloc, state, world, prompts, count);
        if !state.goes_on(end) {
            return end;
        }
        count += 1;
    }
}

// The script that is asked for, and then the lines of the input, if they are asked for too.
fn start<W: Outside>(
    alloc: Global,
    state: &mut State,
    world: &mut W,
    prompts: bool,
    file: Option<Text>,
) -> End
    requires { state.old.past.count ≡ 0 }
    ensures does { Does W.told (Starts prompts file)
        state.old world.old result state.new world.new }
    ensures over { goes_on state.new result ≡ false }
{
    let Some(file) = file else {
        return do_turns(alloc, state, world, prompts);
    };
    let script = Script {
        file,
        prompts: false,
        lenient: false,
        shows: false,
    };
    let end = do_script(alloc, state, world, DEPTH, &script);
    if !state.goes_on(end) {
        return end;
    }
    if prompts {
        do_turns(alloc, state, world, true)
    } else {
        End::Quits
    }
}

// Names the model's file, if there is one.
fn name_model(state: &mut State, file: Option<&Text>) -> Result<(), AllocError>
    ensures ok { OnOk result (state.new ≡ naming (option_copied file.entry) state.old) }
    ensures err { OnErr result (state.new ≡ state.old) }
{
    let Some(file) = file else {
        return Ok(());
    };
    state.vars.set_input_file(file)
}

// A session that is asked for by right words.
fn open<W: Outside>(alloc: Global, state: &mut State, world: &mut W, wanted: Wanted<'_>) -> End
    requires { state.old.past.count ≡ 0 }
    ensures does { Does W.told (SessionAsked (Some (asked_of wanted.entry)))
        state.old world.old result state.new world.new }
    ensures over { goes_on state.new result ≡ false }
{
    let Ok(script) = copy_of(alloc, wanted.script) else {
        return lack_memory(state, world);
    };
    let Ok(()) = name_model(state, wanted.model) else {
        return lack_memory(state, world);
    };
    start(alloc, state, world, wanted.prompts, script)
}

// The status of a session that does not go on: only a refusal has none of its own.
fn status_of(end: End) -> u8
    ensures { (state : State) → goes_on state end ≡ false → after state end ≡ Stop result }
{
    end.status().unwrap_or(1)
}

// A whole session of these words.
fn run_words<W: Outside>(alloc: Global, world: &mut W, words: &Words) -> u8
    ensures { Closes (W.told world.old) (SessionOf words.now) result (W.told world.new) }
{
    let nothing = Wanted {
        prompts: false,
        script: None,
        model: None,
    };
    let Some(wanted) = wanted_by(nothing, words.as_slice()) else {
        return status_of(tell_event(world, &Event::Usage, End::Misused));
    };
    let Ok(mut state) = State::new(alloc) else {
        let event = Event::Refused(Refusal::NoMemory);
        return status_of(tell_event(world, &event, End::NoMemory));
    };
    let end = open(alloc, &mut state, world, wanted);
    status_of(end)
}

/// Does all that the program does: reads the input line by line, does what each line asks for, and
/// answers the exit status.
///
/// The words are those of the command line without the program's name. The texts of events go to
/// `out`, refusals to `err`, as they happen. Statuses: 0 at `quit` or at the end of the input or of
/// the script, 1 where a command was refused while `on_failure_script_quits` is set, 2 where the
/// words are not of their form, 3 where the input fails or passes a limit, 4 where a sink failed, 5
/// where memory was refused outside a command.
pub fn run_shell<R: Source, F: Files, O: Sink, E: Sink, L: Ledger>(
    alloc: Global,
    words: &Words,
    input: &mut R,
    files: &mut F,
    out: &mut O,
    err: &mut E,
    steps: &mut Steps<L>,
) -> u8
    // What happened is a session of these words, and it was written as it happened.
    ensures session { Closes
        (told_of (R.told input.old) (F.told files.old) (O.told out.old) (E.told err.old))
        (SessionOf words.now) result
        (told_of (R.told input.new) (F.told files.new) (O.told out.new) (E.told err.new)) }
    ensures steps { steps.new ≡ steps.old }
{
    let mut world = World {
        input,
        files,
        out,
        err,
    };
    let status = run_words(alloc, &mut world, words);
    let World {
        input: _,
        files: _,
        out: _,
        err: _,
    } = world;
    status
}

/// A session over objects that never fail, with nothing kept of what is written: its status is 0, 1,
/// 2 or 5, or 3 where the input passes a limit. Else it is as that of `run_shell`.
pub fn run_sound<L: Ledger>(
    alloc: Global,
    words: &Words,
    input: &mut SoundSource,
    files: &mut SoundFiles,
    steps: &mut Steps<L>,
) -> u8
    ensures session { Closes (sound_objects input.old files.old) (SessionOf words.now) result
        (sound_objects input.new files.new) }
    ensures status { IsSoundStatus input.old result }
    ensures steps { steps.new ≡ steps.old }
{
    sound_sessions_end_well();
    run_shell(
        alloc,
        words,
        input,
        files,
        &mut NullSink,
        &mut NullSink,
        steps,
    )
}
