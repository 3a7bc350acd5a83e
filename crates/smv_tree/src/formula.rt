use crate::Expr;

/// An operator between two formulas.
#[derive(Clone, Copy, Debug, PartialEq, Eq)]
pub enum FormOp {
    Until,
    Releases,
    And,
    Or,
    Xor,
    Xnor,
    Iff,
    Implies,
}

/// A formula of linear temporal logic over expressions.
#[derive(Debug, Drop)]
pub enum Formula {
    Atom(Expr),
    Not(Box<Formula>),
    Next(Box<Formula>),
    Always(Box<Formula>),
    Eventually(Box<Formula>),
    Two(FormOp, Box<Formula>, Box<Formula>),
}
