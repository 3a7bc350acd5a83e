ghost use Rattle.std.specs.Prelude.{◌≡◌, ◌&&◌, [], nat_le, is_none, length, option_copied, OnOk, OnErr, IfOk};
ghost use Rattle.shell_lang.specs.Answers.{RefusedWhere};
ghost use Rattle.shell_lang.specs.Keyed.{at_name, with_name, without_name};

use crate::LangFault;
use outside::{Text, Words};
use std::alloc::{AllocError, Global};
use std::collections::BTreeMap;
use std::marker::Model;

/// How many aliases there may be.
const MOST: usize = 1000;

/// The aliases with the words that each stands for, in the byte order of their names. There are at
/// most a thousand.
#[derive(Debug, Drop)]
pub struct Aliases {
    alloc: Global,
    words: BTreeMap<Text, Words>,
}

impl Model for Aliases {
    ghost use Rattle.std.specs.Prelude.{ℕ, List};

    ghost Value = { List (List ℕ × List (List ℕ)) };

    ghost view = { λ a. a.words.entries };
}

impl Aliases {
    /// No aliases.
    ///
    /// # Errors
    ///
    /// None is answered today; the signature leaves room for a table that is made at once.
    pub fn new(alloc: Global) -> Result<Aliases, AllocError>
        ensures { IfOk result (λ aliases. aliases ≡ []) }
    {
        Ok(Aliases {
            alloc,
            words: BTreeMap::new(alloc),
        })
    }

    /// Makes a name stand for words, in place of those that it stood for.
    ///
    /// # Errors
    ///
    /// `TooManyAliases` at a new name after a thousand, `NoMemory` where memory is refused; nothing
    /// has changed then.
    pub fn put(&mut self, name: &Text, words: &Words) -> Result<(), LangFault>
        ensures ok { OnOk result (self.new ≡ with_name self.old name.now words.now) }
        ensures err { OnErr result (self.new ≡ self.old) }
        ensures full { RefusedWhere
            (is_none (at_name self.old name.now) && nat_le 1000 (length self.old))
            LangFault.TooManyAliases result }
    {
        if self.words.get(name).is_none() && self.words.len() >= MOST {
            return Err(LangFault::TooManyAliases);
        }
        let words = words.copy(self.alloc)?;
        let name = name.copy(self.alloc)?;
        self.words
            .insert(name, words)
            .map_err(|_| LangFault::NoMemory(AllocError))?;
        Ok(())
    }

    /// Takes an alias away.
    ///
    /// # Errors
    ///
    /// `NoName` where the name is no alias, `NoMemory` where memory is refused; nothing has changed
    /// then.
    pub fn remove(&mut self, name: &Text) -> Result<(), LangFault>
        ensures ok { OnOk result (self.new ≡ without_name self.old name.now) }
        ensures err { OnErr result (self.new ≡ self.old) }
        ensures unknown { RefusedWhere (is_none (at_name self.old name.now))
            (LangFault.NoName name.now) result }
    {
        if self.words.remove(name).is_none() {
            return Err(LangFault::NoName(name.copy(self.alloc)?));
        }
        Ok(())
    }

    /// The words that a name stands for, if it is an alias.
    pub fn get(&self, name: &Text) -> Option<&Words>
        ensures { option_copied result ≡ at_name self.now name.now }
    {
        self.words.get(name)
    }

    /// The names with their words, in the byte order of the names.
    pub fn entries(&self) -> &BTreeMap<Text, Words>
        ensures { result.now.entries ≡ self.now }
    {
        &self.words
    }
}
