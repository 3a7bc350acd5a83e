ghost use Rattle.std.specs.Prelude.{◌≡◌, ◌⊎◌, ◌++◌, ℕ, List, [], Result, Err, reverse, alloc_error, option_copied, IfOk, OnOk};
ghost use Rattle.shell_lang.specs.Answers.{AddsPiece, Answers};
ghost use Rattle.shell_lang.specs.Filled.{body_of, filled, filled_word, text_of_piece, Expands, Unfolds};
ghost use Rattle.std.specs.BTreeSet.{contains};
ghost use Rattle.std.specs.Cmp.Lexicographic.{slice_cmp};
ghost use Rattle.std.specs.Ordering.{nat_cmp};
ghost use Rattle.shell_lang.specs.declared.fault.LangFault.{LangFault};
ghost use Rattle.shell_lang.specs.declared.fault.LangFault.TheVariants.{NoMemory};

use crate::{Aliases, Command, LangFault, Piece, Vars, Word};
use outside::{Text, Words};
use std::alloc::{AllocError, Global};
use std::collections::BTreeSet;

/// The words of a command: each variable's value stands in its word, without new splitting, and an
/// alias at the head is replaced by its words, and again, each alias at most once.
///
/// # Errors
///
/// `Unset` at the first variable that has no value, `NoMemory` where memory is refused.
pub fn expand(
    alloc: Global,
    command: &Command,
    vars: &Vars,
    aliases: &Aliases,
) -> Result<Words, LangFault>
    ensures right { Expands vars.now aliases.now command.now result
        ⊎ (result ≡ Err (NoMemory alloc_error)) }
    ensures only { (answer : Result (List (List ℕ)) LangFault) →
        Expands vars.now aliases.now command.now answer → Answers answer result }
{
    let mut words = fill(alloc, command, vars)?.into_vec();
    words.reverse();
    let mut words = unfold(alloc, words, aliases)?;
    words.reverse();
    Ok(Words::from_vec(words))
}

// The words with the values of their variables.
fn fill(alloc: Global, command: &Command, vars: &Vars) -> Result<Words, LangFault>
    ensures { Answers (filled vars.now command.now) result }
{
    let mut words = Words::new(alloc);
    for word in command.as_slice() {
        words.push(fill_word(alloc, word, vars)?)?;
    }
    Ok(words)
}

// A word with the values of its variables.
fn fill_word(alloc: Global, word: &Word, vars: &Vars) -> Result<Text, LangFault>
    ensures { Answers (filled_word vars.now word.now) result }
{
    let mut text = Text::new(alloc);
    for piece in word.as_slice() {
        add_piece(alloc, &mut text, piece, vars)?;
    }
    Ok(text)
}

// Adds the text that a piece stands for.
fn add_piece(alloc: Global, text: &mut Text, piece: &Piece, vars: &Vars) -> Result<(), LangFault>
    ensures { AddsPiece (text_of_piece vars.now piece.now) text.old text.new result }
{
    match piece {
        Piece::Plain(plain) => {
            text.extend(plain.as_slice())?;
            Ok(())
        }
        Piece::Var(name) => match vars.get(name) {
            Some(value) => {
                text.extend(value.as_slice())?;
                Ok(())
            }
            None => Err(LangFault::Unset(name.copy(alloc)?)),
        },
    }
}

// Replaces aliases at the head. The words stand the last one first, before and after.
fn unfold(alloc: Global, words: Vec<Text>, aliases: &Aliases) -> Result<Vec<Text>, AllocError>
    ensures right { IfOk result (λ last.
        Unfolds aliases.now [] (reverse words.items) (reverse last.items)) }
    ensures only { IfOk result (λ last. (other : List (List ℕ)) →
        Unfolds aliases.now [] (reverse words.items) other → other ≡ reverse last.items) }
{
    let mut words = words;
    let mut used = BTreeSet::new(alloc);
    while let Some(name) = words.pop() {
        match body_of(aliases, &used, &name) {
            Some(body) => {
                push_reversed(alloc, &mut words, body)?;
                used.insert(name)?;
            }
            None => {
                words.push(name)?;
                return Ok(words);
            }
        }
    }
    Ok(words)
}

// The words that a name stands for, if it is an alias that was not replaced before.
fn body_of<'a>(aliases: &'a Aliases, used: &BTreeSet<Text>, name: &Text) -> Option<&'a Words>
    ensures { option_copied result
        ≡ body_of aliases.now (contains (slice_cmp nat_cmp) used.now name.now) name.now }
{
    if used.contains(name) {
        None
    } else {
        aliases.get(name)
    }
}

// Pushes the words of a body, the last one first.
fn push_reversed(alloc: Global, words: &mut Vec<Text>, body: &Words) -> Result<(), AllocError>
    ensures { OnOk result (reverse words.new.items ≡ body.now ++ reverse words.old.items) }
{
    let body = body.as_slice();
    let mut left = body.len();
    while left > 0 {
        left -= 1;
        words.push(body[left].copy(alloc)?)?;
    }
    Ok(())
}
