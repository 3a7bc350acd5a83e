//! What a module declares.

/// What a name is that an item of a module declares. Items count from 0.
#[derive(Clone, Copy, Debug, PartialEq, Eq)]
pub enum Declared {
    /// The variable of a plain type that this item declares.
    Variable(usize),
    /// The instance that this item declares.
    Instance(usize),
    /// The define of this item, and how many defines of the module stand before it.
    Define(usize, usize),
}
