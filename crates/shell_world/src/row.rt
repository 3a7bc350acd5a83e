//! The rows of the commands: what a topic says of each of its commands, as data.
ghost use Rattle.std.specs.Prelude.{◌≡◌, ◌⊎◌, ◌++◌, map, IfErr, IfOk, Err, Ok, OnOk};
ghost use Rattle.shell_world.specs.Rows.{Gives, with_word};
ghost use Rattle.shell_world.specs.Texts.{refusal_number};

use crate::{Phase, Refusal, State};
use cmd_table::{Given, Table, read_options};
use outside::{Text, Words};
use std::alloc::{AllocError, Global};

/// A command: how it is called, what it takes, and what it needs.
#[derive(Clone, Copy)]
pub struct Row<const N: usize> {
    /// The word that it is called by.
    pub word: &'static [u8],
    /// Its line of `help`: the command as a user writes it.
    pub help: &'static [u8],
    /// Its options and free words.
    pub table: Table<N>,
    /// The phase that a session has to be in, or past.
    pub needs: Phase,
}

/// The commands of a topic.
pub trait Listed: Copy {
    ghost use Rattle.std.specs.Prelude.{ℕ, List};

    /// The word that a command is called by, and its line of `help`.
    ghost word: { Self → List ℕ };

    ghost help: { Self → List ℕ };

    /// The word that the command is called by.
    fn word(self) -> &'static [u8]
        ensures { result.now ≡ word self };

    /// The command as a user writes it.
    fn help(self) -> &'static [u8]
        ensures { result.now ≡ help self };
}

/// The command of a word.
pub fn find_word<C: Listed>(commands: &[C], word: &[u8]) -> Option<C>
    ensures { result ≡ with_word C.Listed.word commands.now word.now }
{
    commands
        .iter()
        .copied()
        .find(|command| command.word() == word)
}

/// Adds the words of commands.
///
/// # Errors
///
/// `AllocError` where memory is refused.
pub fn put_words<C: Listed>(
    alloc: Global,
    words: &mut Vec<Text>,
    commands: &[C],
) -> Result<(), AllocError>
    ensures { OnOk result (words.new.items ≡ words.old.items ++ map C.Listed.word commands.now) }
{
    for command in commands {
        words.push(Text::from_slice(alloc, command.word())?)?;
    }
    Ok(())
}

/// What the words of a command give by its row, in this session.
///
/// # Errors
///
/// The refusal of a word, or else what the session lacks: `NoModel` where no model was read, and
/// `MustComeFirst` with the first phase that is missing.
pub fn read_row<const N: usize>(
    alloc: Global,
    state: &State,
    row: &Row<N>,
    words: &Words,
) -> Result<Given, Refusal>
    ensures given { IfOk result (λ given.
        Gives row.now.table row.now.needs words.now state.now (Ok given)) }
    ensures refused { IfErr result (λ refusal.
        (refusal_number refusal ≡ 900)
        ⊎ Gives row.now.table row.now.needs words.now state.now (Err refusal)) }
{
    match read_options(alloc, &row.table, words) {
        Ok(given) => match state.lacks(row.needs) {
            None => Ok(given),
            Some(refusal) => Err(refusal),
        },
        Err(fault) => Err(Refusal::Options(fault)),
    }
}
