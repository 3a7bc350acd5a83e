ghost use Rattle.std.specs.Prelude.{◌≡◌, length};

use outside::Text;
use std::marker::Model;

/// A part of a word.
#[derive(Debug, Drop)]
pub enum Piece {
    /// Text that stands for itself.
    Plain(Text),
    /// The name of a variable, whose value stands here.
    Var(Text),
}

/// A word, as the list of its pieces.
#[derive(Debug, Drop)]
pub struct Word {
    pieces: Vec<Piece>,
}

/// A command, as the list of its words. There is at least one in each command of a line.
#[derive(Debug, Drop)]
pub struct Command {
    words: Vec<Word>,
}

/// The commands of a line.
#[derive(Debug, Drop)]
pub struct Commands {
    commands: Vec<Command>,
}

impl Model for Word {
    ghost use Rattle.std.specs.Prelude.{List};
    ghost use Rattle.shell_lang.specs.declared.line.Piece.{Piece};

    ghost Value = { List Piece };

    ghost view = { λ w. w.pieces.items };
}

impl Model for Command {
    ghost use Rattle.std.specs.Prelude.{List};
    ghost use Rattle.shell_lang.specs.declared.line.Piece.{Piece};

    ghost Value = { List (List Piece) };

    ghost view = { λ c. c.words.items };
}

impl Model for Commands {
    ghost use Rattle.std.specs.Prelude.{List};
    ghost use Rattle.shell_lang.specs.declared.line.Piece.{Piece};

    ghost Value = { List (List (List Piece)) };

    ghost view = { λ c. c.commands.items };
}

impl Word {
    /// The word of these pieces, which are taken over.
    pub fn from_vec(pieces: Vec<Piece>) -> Word
        ensures { result ≡ pieces.items }
    {
        Word { pieces }
    }

    /// The pieces as a slice.
    pub fn as_slice(&self) -> &[Piece]
        ensures { result.now ≡ self.now }
    {
        self.pieces.as_slice()
    }
}

impl Command {
    /// The command of these words, which are taken over.
    pub fn from_vec(words: Vec<Word>) -> Command
        ensures { result ≡ words.items }
    {
        Command { words }
    }

    /// The words as a slice.
    pub fn as_slice(&self) -> &[Word]
        ensures { result.now ≡ self.now }
    {
        self.words.as_slice()
    }
}

impl Commands {
    /// The list of these commands, which are taken over.
    pub fn from_vec(commands: Vec<Command>) -> Commands
        ensures { result ≡ commands.items }
    {
        Commands { commands }
    }

    /// The commands as a slice.
    pub fn as_slice(&self) -> &[Command]
        ensures { result.now ≡ self.now }
    {
        self.commands.as_slice()
    }
}
