ghost use Rattle.std.specs.Prelude.{◌≡◌, ◌∷◌, ◌++◌, [], IfOk, OnOk, List};

use crate::mark::Mark;
use crate::{Command, Commands, Piece, Word};
use std::alloc::{AllocError, Global};
use std::mem;

// The commands of a line as far as it is read: those that are whole, and the words and the pieces of
// the one that is not.
#[derive(Drop)]
pub struct Builder {
    alloc: Global,
    commands: Vec<Command>,
    words: Vec<Word>,
    pieces: Vec<Piece>,
}

impl Builder {
    ghost use Rattle.shell_lang.specs.Grouped.{kept, from_open, with_marks};
    ghost use Rattle.shell_lang.specs.declared.mark.Mark.{Mark};

    // Nothing is read yet.
    pub fn new(alloc: Global) -> Builder
        ensures { (marks : List Mark) → with_marks result marks ≡ from_open [] [] marks }
    {
        Builder {
            alloc,
            commands: Vec::new(alloc),
            words: Vec::new(alloc),
            pieces: Vec::new(alloc),
        }
    }

    // Reads a mark on.
    pub fn add(&mut self, mark: Mark) -> Result<(), AllocError>
        ensures { OnOk result ((marks : List Mark) →
            with_marks self.new marks ≡ with_marks self.old (mark ∷ marks)) }
    {
        match mark {
            Mark::Part(piece) => {
                self.pieces.push(piece)?;
                Ok(())
            }
            Mark::Gap => self.end_word(),
            Mark::End => self.end_command(),
        }
    }

    // The commands, where no mark follows.
    pub fn finish(mut self) -> Result<Commands, AllocError>
        ensures { IfOk result (λ commands. commands ≡ with_marks self []) }
    {
        self.end_command()?;
        let Builder {
            alloc: _,
            commands,
            words: _,
            pieces: _,
        } = self;
        Ok(Commands::from_vec(commands))
    }

    // Ends the word, if there is one.
    fn end_word(&mut self) -> Result<(), AllocError>
        ensures commands { OnOk result (self.new.commands.items ≡ self.old.commands.items) }
        ensures words { OnOk result
            (self.new.words.items ≡ self.old.words.items ++ kept self.old.pieces.items) }
        ensures pieces { OnOk result (self.new.pieces.items ≡ []) }
    {
        if !self.pieces.is_empty() {
            let pieces = mem::replace(&mut self.pieces, Vec::new(self.alloc));
            self.words.push(Word::from_vec(pieces))?;
        }
        Ok(())
    }

    // Ends the word and the command, if there are any.
    fn end_command(&mut self) -> Result<(), AllocError>
        ensures commands { OnOk result (self.new.commands.items ≡ self.old.commands.items
            ++ kept (self.old.words.items ++ kept self.old.pieces.items)) }
        ensures words { OnOk result (self.new.words.items ≡ []) }
        ensures pieces { OnOk result (self.new.pieces.items ≡ []) }
    {
        self.end_word()?;
        if !self.words.is_empty() {
            let words = mem::replace(&mut self.words, Vec::new(self.alloc));
            self.commands.push(Command::from_vec(words))?;
        }
        Ok(())
    }
}
