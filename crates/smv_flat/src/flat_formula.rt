use crate::FlatExpr;
use smv_tree::FormOp;

/// A formula of linear temporal logic over flat expressions.
#[derive(Debug, Drop)]
pub enum FlatFormula {
    Atom(FlatExpr),
    Not(Box<FlatFormula>),
    Next(Box<FlatFormula>),
    Always(Box<FlatFormula>),
    Eventually(Box<FlatFormula>),
    Two(FormOp, Box<FlatFormula>, Box<FlatFormula>),
}
