use crate::{Path, Place, WordVal};

/// An operator before one operand, or a function of one.
#[derive(Clone, Copy, Debug, PartialEq, Eq)]
pub enum Op1 {
    Not,
    Neg,
    Word1,
    Bool,
    Signed,
    Unsigned,
    ToInt,
}

/// An operator between two operands.
#[derive(Clone, Copy, Debug, PartialEq, Eq)]
pub enum Op2 {
    Concat,
    Mul,
    Div,
    Mod,
    Add,
    Sub,
    Shl,
    Shr,
    Union,
    In,
    Eq,
    Ne,
    Lt,
    Gt,
    Le,
    Ge,
    And,
    Or,
    Xor,
    Xnor,
    Iff,
    Implies,
}

/// An expression. Each node has the place of its operator, function word, `case`, `{` or `[`; a
/// name, a constant and a range have that of their first token.
#[cycle(expr)]
#[derive(Debug, Drop)]
pub enum Expr {
    Truth(Place, bool),
    Number(Place, u64),
    Word(Place, WordVal),
    Name(Place, Path),
    /// The numbers from the first to the second.
    Span(Place, i64, i64),
    Set(Place, Exprs),
    Case(Place, Branches),
    /// `condition ? then : else`
    If(Place, Box<Expr>, Box<Expr>, Box<Expr>),
    One(Place, Op1, Box<Expr>),
    Two(Place, Op2, Box<Expr>, Box<Expr>),
    /// The bits from the higher number down to the lower.
    Select(Place, Box<Expr>, u32, u32),
    Next(Place, Box<Expr>),
    /// `resize` where the `bool` is true, else `extend`, with the number of bits.
    Widen(Place, bool, Box<Expr>, u32),
    /// `swconst` where the `bool` is true, else `uwconst`: a number as a word of that width.
    Const(Place, bool, i64, u32),
    Count(Place, Exprs),
}

/// Expressions in the order of the text.
pub type Exprs = Vec<Expr>;

/// A branch of a `case`.
#[cycle(expr)]
#[derive(Debug, Drop)]
pub struct Branch {
    pub condition: Expr,
    pub value: Expr,
}

/// The branches of a `case` in the order of the text.
pub type Branches = Vec<Branch>;
