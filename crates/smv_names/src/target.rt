//! What a path of names stands for.

/// What a path of names stands for in an instance. Instances, items and parameters count from 0.
#[derive(Clone, Copy, Debug, PartialEq, Eq)]
pub enum Target {
    /// The variable that an item of an instance declares: the instance, and the item.
    Variable(usize, usize),
    /// The define of an item of an instance: the instance, and the item.
    Define(usize, usize),
    /// A parameter whose actual is no path alone: the instance that has it, and the parameter.
    Parameter(usize, usize),
    /// An instance.
    Instance(usize),
    /// A symbol, by its number among the symbols.
    Symbol(usize),
}
