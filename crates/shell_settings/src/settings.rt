ghost use Rattle.std.specs.Prelude.{◌≡◌, IfOk, None};
ghost use Rattle.shell_settings.specs.Settings.{Aliases, AliasesWith, DoesSettings, DropsAlias, ListsAlias, ListsAliases, ListsValues, PutsAlias, Sets, SetsTo, SetsWith, ShowsAlias, ShowsNamed, ShowsValue, TakesBack, Unaliases, Unsets};
ghost use Rattle.shell_world.specs.declared.event.Event.TheVariants as event;
ghost use Rattle.shell_world.specs.declared.settings_event.SettingsEvent.TheVariants as settings;
ghost use Rattle.shell_world.specs.Texts.{joined};
ghost use Rattle.shell_world.specs.Steps.{WithFirst};
ghost use Rattle.shell_world.specs.Outsides.{Does};

use crate::past::do_history;
use cmd_table::commands;
use outside::{Text, Words};
use shell_lang::LangFault;
use shell_world::{
    End, Event, Listed, Outside, Phase, Refusal, Row, SettingsEvent, State, join, read_row, refuse,
    say,
};
use std::alloc::{AllocError, Global};

/// The commands of the settings.
#[derive(Clone, Copy, Debug, PartialEq, Eq)]
pub enum SettingsCommand {
    Alias,
    History,
    Set,
    Unalias,
    Unset,
}

/// All of them.
pub const SETTINGS_COMMANDS: [SettingsCommand; 5] = [
    SettingsCommand::Alias,
    SettingsCommand::History,
    SettingsCommand::Set,
    SettingsCommand::Unalias,
    SettingsCommand::Unset,
];

impl Listed for SettingsCommand {
    ghost use Rattle.shell_settings.specs.Settings.{settings_help, settings_word};

    ghost word = { settings_word };

    ghost help = { settings_help };

    fn word(self) -> &'static [u8] {
        match self {
            SettingsCommand::Alias => ALIAS.word,
            SettingsCommand::History => HISTORY.word,
            SettingsCommand::Set => SET.word,
            SettingsCommand::Unalias => UNALIAS.word,
            SettingsCommand::Unset => UNSET.word,
        }
    }

    fn help(self) -> &'static [u8] {
        match self {
            SettingsCommand::Alias => ALIAS.help,
            SettingsCommand::History => HISTORY.help,
            SettingsCommand::Set => SET.help,
            SettingsCommand::Unalias => UNALIAS.help,
            SettingsCommand::Unset => UNSET.help,
        }
    }
}

pub const ALIAS: Row<0> = Row {
    word: b"alias",
    help: b"alias [name [words]]",
    table: commands::ALIAS,
    needs: Phase::Start,
};

pub const HISTORY: Row<0> = Row {
    word: b"history",
    help: b"history [n]",
    table: commands::HISTORY,
    needs: Phase::Start,
};

pub const SET: Row<0> = Row {
    word: b"set",
    help: b"set [name [value]]",
    table: commands::SET,
    needs: Phase::Start,
};

pub const UNALIAS: Row<0> = Row {
    word: b"unalias",
    help: b"unalias name",
    table: commands::UNALIAS,
    needs: Phase::Start,
};

pub const UNSET: Row<0> = Row {
    word: b"unset",
    help: b"unset name",
    table: commands::UNSET,
    needs: Phase::Start,
};

/// Does a command of the settings. The remembered lines stay as they were.
pub fn do_settings<W: Outside>(
    alloc: Global,
    state: &mut State,
    world: &mut W,
    command: SettingsCommand,
    words: &Words,
) -> End
    ensures does { Does W.told (DoesSettings command words.now)
        state.old world.old result state.new world.new }
    ensures past { state.new.past ≡ state.old.past }
{
    match command {
        SettingsCommand::Alias => do_alias(alloc, state, world, words),
        SettingsCommand::History => do_history(alloc, state, world, words),
        SettingsCommand::Set => do_set(alloc, state, world, words),
        SettingsCommand::Unalias => do_unalias(alloc, state, world, words),
        SettingsCommand::Unset => do_unset(alloc, state, world, words),
    }
}

// An entry with copies of its texts.
fn entry_of(alloc: Global, name: &Text, value: &Text) -> Result<Event, AllocError>
    ensures { IfOk result (λ e. e ≡ event.Settings (settings.Entry name.now value.now)) }
{
    let name = name.copy(alloc)?;
    let value = value.copy(alloc)?;
    Ok(Event::Settings(SettingsEvent::Entry(name, value)))
}

// An entry whose words are joined.
fn joined_entry(alloc: Global, name: &Text, words: &Words) -> Result<Event, AllocError>
    ensures { IfOk result (λ e. e ≡ event.Settings (settings.Entry name.now (joined words.now))) }
{
    let name = name.copy(alloc)?;
    let value = join(alloc, words.as_slice())?;
    Ok(Event::Settings(SettingsEvent::Entry(name, value)))
}

// Shows a variable with its value.
fn show_value<W: Outside>(
    alloc: Global,
    state: &State,
    world: &mut W,
    name: &Text,
    value: &Text,
) -> End
    ensures { Does W.told (ShowsValue (name.now, value.now))
        state.now world.old result state.now world.new }
{
    match entry_of(alloc, name, value) {
        Ok(event) => say(state, world, event),
        Err(_) => refuse(state, world, Refusal::NoMemory),
    }
}

// Shows an alias with its words.
fn show_alias<W: Outside>(
    alloc: Global,
    state: &State,
    world: &mut W,
    name: &Text,
    words: &Words,
) -> End
    ensures { Does W.told (ShowsAlias (name.now, words.now))
        state.now world.old result state.now world.new }
{
    match joined_entry(alloc, name, words) {
        Ok(event) => say(state, world, event),
        Err(_) => refuse(state, world, Refusal::NoMemory),
    }
}

// Shows all variables.
fn list_values<W: Outside>(alloc: Global, state: &State, world: &mut W) -> End
    ensures { Does W.told ListsValues state.now world.old result state.now world.new }
{
    for (name, value) in state.vars.entries().iter() {
        let end = show_value(alloc, state, world, name, value);
        if !state.goes_along(end) {
            return end;
        }
    }
    End::Went
}

// Shows all aliases.
fn list_aliases<W: Outside>(alloc: Global, state: &State, world: &mut W) -> End
    ensures { Does W.told ListsAliases state.now world.old result state.now world.new }
{
    for (name, words) in state.aliases.entries().iter() {
        let end = show_alias(alloc, state, world, name, words);
        if !state.goes_along(end) {
            return end;
        }
    }
    End::Went
}

// Refuses a name that is no alias.
fn no_name<W: Outside>(alloc: Global, state: &State, world: &mut W, name: &Text) -> End
    ensures { Does W.told (ShowsNamed name.now None)
        state.now world.old result state.now world.new }
{
    match name.copy(alloc) {
        Ok(name) => refuse(state, world, Refusal::Language(LangFault::NoName(name))),
        Err(_) => refuse(state, world, Refusal::NoMemory),
    }
}

// Shows one alias.
fn list_alias<W: Outside>(alloc: Global, state: &State, world: &mut W, name: &Text) -> End
    ensures { Does W.told (ListsAlias name.now) state.now world.old result state.now world.new }
{
    match state.aliases.get(name) {
        Some(words) => show_alias(alloc, state, world, name, words),
        None => no_name(alloc, state, world, name),
    }
}

// Sets a variable.
fn set_to<W: Outside>(state: &mut State, world: &mut W, name: &Text, value: &Text) -> End
    ensures does { Does W.told (SetsTo name.now value.now)
        state.old world.old result state.new world.new }
    ensures past { state.new.past ≡ state.old.past }
{
    match state.vars.set(name, value) {
        Ok(()) => End::Went,
        Err(fault) => refuse(state, world, Refusal::Language(fault)),
    }
}

// Takes a variable back.
fn take_back<W: Outside>(state: &mut State, world: &mut W, name: &Text) -> End
    ensures does { Does W.told (TakesBack name.now) state.old world.old result state.new world.new }
    ensures past { state.new.past ≡ state.old.past }
{
    match state.vars.unset(name) {
        Ok(()) => End::Went,
        Err(fault) => refuse(state, world, Refusal::Language(fault)),
    }
}

// Makes a name stand for words.
fn put_alias<W: Outside>(state: &mut State, world: &mut W, name: &Text, words: &Words) -> End
    ensures does { Does W.told (PutsAlias name.now words.now)
        state.old world.old result state.new world.new }
    ensures past { state.new.past ≡ state.old.past }
{
    match state.aliases.put(name, words) {
        Ok(()) => End::Went,
        Err(fault) => refuse(state, world, Refusal::Language(fault)),
    }
}

// Takes an alias away.
fn drop_alias<W: Outside>(state: &mut State, world: &mut W, name: &Text) -> End
    ensures does { Does W.told (DropsAlias name.now)
        state.old world.old result state.new world.new }
    ensures past { state.new.past ≡ state.old.past }
{
    match state.aliases.remove(name) {
        Ok(()) => End::Went,
        Err(fault) => refuse(state, world, Refusal::Language(fault)),
    }
}

// `set` with its free words.
fn set_with<W: Outside>(alloc: Global, state: &mut State, world: &mut W, words: &[Text]) -> End
    ensures does { Does W.told (SetsWith words.now) state.old world.old result state.new world.new }
    ensures past { state.new.past ≡ state.old.past }
{
    match words {
        [] => list_values(alloc, state, world),
        [name] => set_to(state, world, name, &Text::new(alloc)),
        [name, value, ..] => set_to(state, world, name, value),
    }
}

// `set [name [value]]`
fn do_set<W: Outside>(alloc: Global, state: &mut State, world: &mut W, words: &Words) -> End
    ensures does { Does W.told (Sets words.now) state.old world.old result state.new world.new }
    ensures past { state.new.past ≡ state.old.past }
{
    match read_row(alloc, state, &SET, words) {
        Ok(given) => set_with(alloc, state, world, given.rest.as_slice()),
        Err(refusal) => refuse(state, world, refusal),
    }
}

// `unset name`
fn do_unset<W: Outside>(alloc: Global, state: &mut State, world: &mut W, words: &Words) -> End
    ensures does { Does W.told (Unsets words.now) state.old world.old result state.new world.new }
    ensures past { state.new.past ≡ state.old.past }
{
    match read_row(alloc, state, &UNSET, words) {
        Ok(given) => unset_with(state, world, given.rest.as_slice()),
        Err(refusal) => refuse(state, world, refusal),
    }
}

// `unset` with its free word.
fn unset_with<W: Outside>(state: &mut State, world: &mut W, words: &[Text]) -> End
    ensures does { Does W.told (WithFirst TakesBack words.now)
        state.old world.old result state.new world.new }
    ensures past { state.new.past ≡ state.old.past }
{
    match words {
        [] => End::Went,
        [name, ..] => take_back(state, world, name),
    }
}

// `alias` with its free words.
fn alias_with<W: Outside>(alloc: Global, state: &mut State, world: &mut W, words: Words) -> End
    ensures does { Does W.told (AliasesWith words) state.old world.old result state.new world.new }
    ensures past { state.new.past ≡ state.old.past }
{
    let mut texts = words.into_vec();
    if texts.is_empty() {
        return list_aliases(alloc, state, world);
    }
    let name = texts.remove(0);
    if texts.is_empty() {
        return list_alias(alloc, state, world, &name);
    }
    put_alias(state, world, &name, &Words::from_vec(texts))
}

// `alias [name [words]]`
fn do_alias<W: Outside>(alloc: Global, state: &mut State, world: &mut W, words: &Words) -> End
    ensures does { Does W.told (Aliases words.now) state.old world.old result state.new world.new }
    ensures past { state.new.past ≡ state.old.past }
{
    match read_row(alloc, state, &ALIAS, words) {
        Ok(given) => alias_with(alloc, state, world, given.rest),
        Err(refusal) => refuse(state, world, refusal),
    }
}

// `unalias` with its free word.
fn unalias_with<W: Outside>(state: &mut State, world: &mut W, words: &[Text]) -> End
    ensures does { Does W.told (WithFirst DropsAlias words.now)
        state.old world.old result state.new world.new }
    ensures past { state.new.past ≡ state.old.past }
{
    match words {
        [] => End::Went,
        [name, ..] => drop_alias(state, world, name),
    }
}

// `unalias name`
fn do_unalias<W: Outside>(alloc: Global, state: &mut State, world: &mut W, words: &Words) -> End
    ensures does { Does W.told (Unaliases words.now)
        state.old world.old result state.new world.new }
    ensures past { state.new.past ≡ state.old.past }
{
    match read_row(alloc, state, &UNALIAS, words) {
        Ok(given) => unalias_with(state, world, given.rest.as_slice()),
        Err(refusal) => refuse(state, world, refusal),
    }
}
