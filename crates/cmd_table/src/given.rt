ghost use Rattle.std.specs.Prelude.{◌≡◌, ◌<◌, ◌+◌, ◌^◌, length, slice_set, replicate, option_copied, Option, None, Some, IfOk, OnOk, OnErr};

use outside::{Text, Words};
use std::alloc::{AllocError, Global};
use std::marker::Model;

/// For each option of a table, in its order: none where it is not given, and else the word that it
/// took, which is empty where it takes nothing.
#[derive(Debug, Drop)]
pub struct OptTexts {
    texts: Vec<Option<Text>>,
}

impl Model for OptTexts {
    ghost use Rattle.std.specs.Prelude.{ℕ, List, Option};

    ghost Value = { List (Option (List ℕ)) };

    ghost view = { λ t. t.texts.items };
}

/// What the words of a command give.
#[derive(Debug, Drop)]
pub struct Given {
    /// The word of each option.
    pub values: OptTexts,
    /// The free words.
    pub rest: Words,
}

impl OptTexts {
    ghost use Rattle.cmd_table.specs.Options.{value_at};

    // No option is given, of so many.
    pub(crate) fn none(alloc: Global, count: usize) -> Result<OptTexts, AllocError>
        ensures { IfOk result (λ texts. texts ≡ replicate count (Option.None)) }
    {
        let mut texts = Vec::new(alloc);
        for _place in 0..count {
            texts.push(None)?;
        }
        Ok(OptTexts { texts })
    }

    /// The word that an option took, by its place in the table, if it is given.
    pub fn get(&self, place: usize) -> Option<&Text>
        ensures { option_copied result ≡ value_at self.now place }
    {
        match self.texts.get(place) {
            Some(Some(text)) => Some(text),
            _ => None,
        }
    }

    // Gives an option its word.
    pub(crate) fn put(&mut self, place: usize, text: Text)
        requires { place < length self.old }
        ensures { self.new ≡ slice_set self.old place (Some text) }
    {
        self.texts[place] = Some(text);
    }
}
