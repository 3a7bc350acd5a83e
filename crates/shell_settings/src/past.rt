ghost use Rattle.std.specs.Prelude.{None, Some};
ghost use Rattle.outside.specs.Number.{number_of};
ghost use Rattle.shell_lang.specs.Past.{line_of};
ghost use Rattle.shell_settings.specs.Settings.{ShowsHistory, ShowsLast, ShowsLine, ShowsMost, ShowsWith};
ghost use Rattle.shell_world.specs.Outsides.{Does};

use crate::settings::HISTORY;
use cmd_table::OptFault;
use outside::{Text, Words, read_number};
use shell_world::{End, Event, Outside, Refusal, SettingsEvent, State, read_row, refuse, say};
use std::alloc::Global;

// Shows a remembered line, after its number.
fn show_past<W: Outside>(
    alloc: Global,
    state: &State,
    world: &mut W,
    number: u64,
    line: &Text,
) -> End
    ensures { Does W.told (ShowsLine number (Some line.now))
        state.now world.old result state.now world.new }
{
    match line.copy(alloc) {
        Ok(line) => say(
            state,
            world,
            Event::Settings(SettingsEvent::Past(number, line)),
        ),
        Err(_) => refuse(state, world, Refusal::NoMemory),
    }
}

// Shows a remembered line, if it is kept.
fn show_line<W: Outside>(alloc: Global, state: &State, world: &mut W, number: u64) -> End
    ensures { Does W.told (ShowsLine number (line_of state.now.past number))
        state.now world.old result state.now world.new }
{
    match state.past.line(number) {
        Some(line) => show_past(alloc, state, world, number, line),
        None => End::Went,
    }
}

// Shows the last of the remembered lines, so many at most.
fn show_last<W: Outside>(alloc: Global, state: &State, world: &mut W, most: u64) -> End
    ensures { Does W.told (ShowsLast most state.now.past)
        state.now world.old result state.now world.new }
{
    let shown = most.min(state.past.kept().len() as u64);
    let first = state.past.count().saturating_sub(shown);
    for place in 0..shown {
        let end = show_line(alloc, state, world, first + place + 1);
        if !state.goes_along(end) {
            return end;
        }
    }
    End::Went
}

// Refuses a word that is no number.
fn no_number<W: Outside>(alloc: Global, state: &State, world: &mut W, word: &Text) -> End
    ensures { Does W.told (ShowsMost word.now None) state.now world.old result state.now world.new }
{
    match word.copy(alloc) {
        Ok(word) => refuse(state, world, Refusal::Options(OptFault::Number(word))),
        Err(_) => refuse(state, world, Refusal::NoMemory),
    }
}

// Shows as many of the last lines as a word says.
fn show_most<W: Outside>(alloc: Global, state: &State, world: &mut W, word: &Text) -> End
    ensures { Does W.told (ShowsMost word.now (number_of word.now))
        state.now world.old result state.now world.new }
{
    match read_number(word.as_slice()) {
        Some(most) => show_last(alloc, state, world, most),
        None => no_number(alloc, state, world, word),
    }
}

// `history` with its free word.
fn show_with<W: Outside>(alloc: Global, state: &State, world: &mut W, words: &[Text]) -> End
    ensures { Does W.told (ShowsWith words.now) state.now world.old result state.now world.new }
{
    match words {
        [] => show_last(alloc, state, world, state.past.count()),
        [word, ..] => show_most(alloc, state, world, word),
    }
}

/// `history [n]`
pub(crate) fn do_history<W: Outside>(
    alloc: Global,
    state: &State,
    world: &mut W,
    words: &Words,
) -> End
    ensures { Does W.told (ShowsHistory words.now) state.now world.old result state.now world.new }
{
    match read_row(alloc, state, &HISTORY, words) {
        Ok(given) => show_with(alloc, state, world, given.rest.as_slice()),
        Err(refusal) => refuse(state, world, refusal),
    }
}
