//! The table of operators: all that is said of the kinds that each takes and gives.
use smv_tree::{Op1, Op2};

/// What an operator or a function of one operand takes. The first that its name has is the one that a
/// refusal names.
#[derive(Clone, Copy)]
pub(crate) enum Operand {
    Boolean,
    BooleanOrWord,
    IntegerOrWord,
    Word,
    /// A boolean, an integer, or an unsigned word of one bit.
    BooleanIntegerOrBit,
    BooleanIntegerOrWord,
}

/// What an operator or a function of one operand gives.
#[derive(Clone, Copy)]
pub(crate) enum OneGives {
    Same,
    /// The same kind; integers with the other sign.
    Negated,
    Boolean,
    /// An unsigned word of one bit.
    Bit,
    SignedWord,
    UnsignedWord,
    /// The integer of a boolean, an integer or a word.
    Number,
}

/// What an operator between two operands takes.
#[derive(Clone, Copy)]
pub(crate) enum Operands {
    Words,
    /// Two booleans, or two words of one type.
    BooleansOrWords,
    /// Two integers, or two words of one type.
    IntegersOrWords,
    /// A word, and an integer or an unsigned word.
    WordAndAmount,
    /// Two that agree.
    Agreeing,
}

/// Which operands of an operator may be sets.
#[derive(Clone, Copy)]
pub(crate) enum Sets {
    Neither,
    Right,
    Both,
}

/// What an operator between two operands gives.
#[derive(Clone, Copy)]
pub(crate) enum TwoGives {
    Boolean,
    /// What is on the left.
    Left,
    /// An unsigned word as wide as both together.
    Concatenated,
    /// What is on the left; these integers of two integers.
    Arithmetic(Ends),
    /// A set of what has the values of both.
    Joined,
}

/// The integers that an operator makes of two intervals.
#[derive(Clone, Copy)]
pub(crate) enum Ends {
    Sums,
    Differences,
    Products,
    Quotients,
    Remainders,
}

/// The line of an operator or a function of one operand.
#[derive(Clone, Copy)]
pub(crate) struct OneEntry {
    pub(crate) operator: Op1,
    pub(crate) takes: Operand,
    pub(crate) gives: OneGives,
}

/// The line of an operator between two operands.
#[derive(Clone, Copy)]
pub(crate) struct TwoEntry {
    pub(crate) operator: Op2,
    pub(crate) takes: Operands,
    pub(crate) sets: Sets,
    pub(crate) gives: TwoGives,
}

/// A line for each operator.
#[derive(Clone, Copy)]
pub(crate) struct OpTable<const M: usize, const N: usize> {
    pub(crate) one: [OneEntry; M],
    pub(crate) two: [TwoEntry; N],
}

macro_rules! one {
    ($operator:ident, $takes:ident, $gives:ident) => {
        OneEntry { operator: Op1::$operator, takes: Operand::$takes, gives: OneGives::$gives }
    };
}

macro_rules! two {
    ($operator:ident, $takes:ident, $sets:ident, $gives:ident) => {
        TwoEntry { operator: Op2::$operator, takes: Operands::$takes, sets: Sets::$sets, gives: TwoGives::$gives }
    };
}

macro_rules! arithmetic {
    ($operator:ident, $ends:ident) => {
        TwoEntry { operator: Op2::$operator, takes: Operands::IntegersOrWords, sets: Sets::Neither, gives: TwoGives::Arithmetic(Ends::$ends) }
    };
}

/// What each operator takes, which of its operands may be sets, and what it gives.
pub(crate) const OPERATORS: OpTable<7, 22> = OpTable {
    one: [
        one!(Not, BooleanOrWord, Same),
        one!(Neg, IntegerOrWord, Negated),
        one!(Word1, Boolean, Bit),
        one!(Bool, BooleanIntegerOrBit, Boolean),
        one!(Signed, Word, SignedWord),
        one!(Unsigned, Word, UnsignedWord),
        one!(ToInt, BooleanIntegerOrWord, Number),
    ],
    two: [
        two!(Concat, Words, Neither, Concatenated),
        arithmetic!(Mul, Products),
        arithmetic!(Div, Quotients),
        arithmetic!(Mod, Remainders),
        arithmetic!(Add, Sums),
        arithmetic!(Sub, Differences),
        two!(Shl, WordAndAmount, Neither, Left),
        two!(Shr, WordAndAmount, Neither, Left),
        two!(Union, Agreeing, Both, Joined),
        two!(In, Agreeing, Right, Boolean),
        two!(Eq, Agreeing, Neither, Boolean),
        two!(Ne, Agreeing, Neither, Boolean),
        two!(Lt, IntegersOrWords, Neither, Boolean),
        two!(Gt, IntegersOrWords, Neither, Boolean),
        two!(Le, IntegersOrWords, Neither, Boolean),
        two!(Ge, IntegersOrWords, Neither, Boolean),
        two!(And, BooleansOrWords, Neither, Left),
        two!(Or, BooleansOrWords, Neither, Left),
        two!(Xor, BooleansOrWords, Neither, Left),
        two!(Xnor, BooleansOrWords, Neither, Left),
        two!(Iff, BooleansOrWords, Neither, Left),
        two!(Implies, BooleansOrWords, Neither, Left),
    ],
};
