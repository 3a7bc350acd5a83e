ghost use Rattle.std.specs.Prelude.{◌≡◌, ◌<◌, ◌∷◌, length, OnOk};
ghost use Rattle.cmd_table.specs.Options.{place_of, fits, begins_with_dash};
ghost use Rattle.cmd_table.specs.Steps.{next, next_free, next_open, next_option, with_argument, Goes};

use crate::check::is_given;
use crate::{Given, Opt, OptFault, Takes};
use outside::{Text, read_number};
use std::alloc::Global;

// Reads a word and what it takes of the words after it, and answers how many of those.
pub fn read_next(
    alloc: Global,
    opts: &[Opt],
    most: u32,
    raw: bool,
    given: &mut Given,
    word: &Text,
    rest: &[Text],
) -> Result<usize, OptFault>
    requires { length given.old.values ≡ length opts.now }
    ensures next { Goes (next opts.now most raw given.old (word.now ∷ rest.now))
        given.new rest.now result }
    ensures places { OnOk result (length given.new.values ≡ length opts.now) }
{
    if raw && given.rest.len() > 0 {
        return read_free(alloc, most, given, word, rest);
    }
    read_open(alloc, opts, most, given, word, rest)
}

// Reads a word that may be an option's.
fn read_open(
    alloc: Global,
    opts: &[Opt],
    most: u32,
    given: &mut Given,
    word: &Text,
    rest: &[Text],
) -> Result<usize, OptFault>
    requires { length given.old.values ≡ length opts.now }
    ensures next { Goes
        (next_open opts.now most given.old word.now rest.now (place_of opts.now word.now))
        given.new rest.now result }
    ensures places { OnOk result (length given.new.values ≡ length opts.now) }
{
    match place_of(opts, word.as_slice()) {
        Some(place) => read_option(alloc, opts, given, place, word, rest),
        None => {
            if begins_with_dash(word.as_slice()) {
                return Err(OptFault::Unknown(word.copy(alloc)?));
            }
            read_free(alloc, most, given, word, rest)
        }
    }
}

// Reads a free word.
fn read_free(
    alloc: Global,
    most: u32,
    given: &mut Given,
    word: &Text,
    rest: &[Text],
) -> Result<usize, OptFault>
    ensures next { Goes (next_free most given.old word.now rest.now) given.new rest.now result }
    ensures places { OnOk result (given.new.values ≡ given.old.values) }
{
    if given.rest.len() >= most as usize {
        return Err(OptFault::Many(word.copy(alloc)?));
    }
    given.rest.push(word.copy(alloc)?)?;
    Ok(0)
}

// Reads the word of an option.
fn read_option(
    alloc: Global,
    opts: &[Opt],
    given: &mut Given,
    place: usize,
    word: &Text,
    rest: &[Text],
) -> Result<usize, OptFault>
    requires within { place < length opts.now }
    requires places { length given.old.values ≡ length opts.now }
    ensures next { Goes (next_option opts.now given.old place word.now rest.now)
        given.new rest.now result }
    ensures places { OnOk result (length given.new.values ≡ length opts.now) }
{
    if is_given(given, place) {
        return Err(OptFault::Repeated(word.copy(alloc)?));
    }
    read_argument(alloc, opts[place].takes, given, place, word, rest)
}

// Reads what an option takes.
fn read_argument(
    alloc: Global,
    takes: Takes,
    given: &mut Given,
    place: usize,
    word: &Text,
    rest: &[Text],
) -> Result<usize, OptFault>
    requires { place < length given.old.values }
    ensures next { Goes (with_argument given.old place word.now rest.now takes)
        given.new rest.now result }
    ensures places { OnOk result (length given.new.values ≡ length given.old.values) }
{
    if let Takes::Nothing = takes {
        given.values.put(place, Text::new(alloc));
        return Ok(0);
    }
    let Some(text) = rest.first() else {
        return Err(OptFault::NoArgument(word.copy(alloc)?));
    };
    if !fits(takes, text.as_slice()) {
        return Err(OptFault::Number(text.copy(alloc)?));
    }
    given.values.put(place, text.copy(alloc)?);
    Ok(1)
}

// Whether an option takes the word: a number has to be in its range.
fn fits(takes: Takes, text: &[u8]) -> bool
    ensures { result ≡ fits takes text.now }
{
    match takes {
        Takes::Number(least, most) => match read_number(text) {
            Some(number) => least <= number as i64 && number as i64 <= most,
            None => false,
        },
        _ => true,
    }
}

// The place of the option that has this word.
fn place_of(opts: &[Opt], word: &[u8]) -> Option<usize>
    ensures { result ≡ place_of opts.now word.now }
{
    opts.iter().position(|opt| opt.word.text() == word)
}

/// Whether a word begins with `-`.
pub fn begins_with_dash(word: &[u8]) -> bool
    ensures { result ≡ begins_with_dash word.now }
{
    match word {
        [b'-', ..] => true,
        _ => false,
    }
}
