use smv_tree::Value;

/// There is a value, but none that the program can hold: an integer outside 64 bits, or a word of
/// more than 128.
#[derive(Clone, Copy, Debug, PartialEq, Eq)]
pub struct TooLarge;

/// The value that an operator gives, if it gives one.
pub type Outcome = Result<Option<Value>, TooLarge>;
