use crate::{FreeWord, OptWord};

/// What an option takes.
#[derive(Clone, Copy, Debug)]
pub enum Takes {
    /// Nothing: the option stands alone.
    Nothing,
    /// The next word, whatever it is.
    Word,
    /// The next word, a number from the first to the last.
    Number(i64, i64),
}

/// An option of a command.
#[derive(Clone, Copy, Debug)]
pub struct Opt {
    /// The word that gives it.
    pub word: OptWord,
    /// What it takes.
    pub takes: Takes,
    /// Bit `i` says that it excludes option `i`, and that one it.
    pub excludes: u32,
    /// Whether it must be given.
    pub required: bool,
}

/// The options and free words of a command. There are at most 32 options, of different words.
#[derive(Clone, Copy)]
pub struct Table<const N: usize> {
    /// The options.
    pub opts: [Opt; N],
    /// The least number of free words.
    pub least: u32,
    /// The most free words.
    pub most: u32,
    /// Bit `i` says that no free word may stand beside option `i`.
    pub alone: u32,
    /// What a free word is called where one is missing.
    pub free: FreeWord,
    /// Whether each word after the first free one is free as it stands.
    pub raw: bool,
}
