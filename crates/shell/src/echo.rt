ghost use Rattle.std.specs.Prelude.{◌≡◌, IfOk};
ghost use Rattle.shell.specs.Echo.{Echoes, EchoesTo, echo_file, echo_side, echoed};
ghost use Rattle.shell_world.specs.Processes.{MayLack};
ghost use Rattle.shell_world.specs.Outsides.{Does};

use crate::topics::ECHO;
use cmd_table::Given;
use outside::{Text, Words};
use shell_world::{
    End, Event, Outside, Refusal, ShellEvent, Side, State, join, read_row, refuse, say, store_file,
};
use std::alloc::{AllocError, Global};

// The places of the options in their table.
const TO_ERRORS: usize = 0;

const NO_LINE_END: usize = 1;

const TO_FILE: usize = 2;

// What is written: the words, and a line end unless it is not wanted.
fn echoed(alloc: Global, given: &Given) -> Result<Text, AllocError>
    ensures { IfOk result (λ text. text ≡ echoed given.now) }
{
    let mut text = join(alloc, given.rest.as_slice())?;
    if given.values.get(NO_LINE_END).is_none() {
        text.push(b'\n')?;
    }
    Ok(text)
}

// Where it is written.
fn echo_side(given: &Given) -> Side
    ensures { result ≡ echo_side given.now }
{
    if given.values.get(TO_ERRORS).is_some() {
        Side::Errors
    } else {
        Side::Output
    }
}

// Writes the words to the file that is given, or to their side.
fn echo_given<W: Outside>(alloc: Global, state: &State, world: &mut W, given: &Given) -> End
    ensures { Does W.told (MayLack (EchoesTo given.now (echo_file given.now)))
        state.now world.old result state.now world.new }
{
    let Ok(text) = echoed(alloc, given) else {
        return refuse(state, world, Refusal::NoMemory);
    };
    match given.values.get(TO_FILE) {
        Some(file) => store_file(alloc, state, world, file, text.as_slice()),
        None => {
            let event = Event::Shell(ShellEvent::Echo(echo_side(given), text));
            say(state, world, event)
        }
    }
}

/// `echo [-2] [-n] [-o file] [words]`
pub(crate) fn do_echo<W: Outside>(alloc: Global, state: &State, world: &mut W, words: &Words) -> End
    ensures { Does W.told (Echoes words.now) state.now world.old result state.now world.new }
{
    match read_row(alloc, state, &ECHO, words) {
        Ok(given) => echo_given(alloc, state, world, &given),
        Err(refusal) => refuse(state, world, refusal),
    }
}
