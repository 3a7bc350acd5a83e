ghost use Rattle.std.specs.Prelude.{◌≡◌, ◌++◌, ◌∷◌, [], IfErr, IfOk, OnOk, max};
ghost use Rattle.smv_tree.specs.Trees.{expr_tree};
ghost use Rattle.smv_reader.specs.Halts.{IsMemory};
ghost use Rattle.smv_rules.specs.Expressions.{no_branches, one_more};
ghost use Rattle.smv_reader.specs.Views.{branches_of, expression_of, operands_of};

use crate::halt::Halt;
use smv_tree::{Branch, Branches, Expr, Exprs};
use std::alloc::{AllocError, Global};

/// An expression with its depth, and whether it is a range that stands alone, to which brackets add
/// nothing.
#[derive(Debug, Drop)]
pub struct Parsed {
    pub expr: Expr,
    pub depth: u32,
    pub bare: bool,
}

/// Expressions in order, with the depth of the deepest.
#[derive(Debug, Drop)]
pub struct ParsedList {
    pub exprs: Exprs,
    pub depth: u32,
}

/// Branches of a case in order, with the depth of the deepest part.
#[derive(Debug, Drop)]
pub struct ParsedCase {
    pub branches: Branches,
    pub depth: u32,
}

impl ParsedList {
    /// A list of one expression.
    pub fn one(alloc: Global, part: Parsed) -> Result<ParsedList, AllocError>
        ensures { IfOk result (λ x. operands_of x ≡ record { trees = expr_tree part.expr ∷ []; depth = part.depth }) }
    {
        let mut exprs = Vec::new(alloc);
        exprs.push(part.expr)?;
        let depth = part.depth;
        Ok(ParsedList { exprs, depth })
    }

    /// Adds an expression.
    pub fn push(&mut self, part: Parsed) -> Result<(), Halt>
        ensures ok { OnOk result (operands_of self.new ≡ one_more (operands_of self.old) (expression_of part)) }
        ensures err { IfErr result IsMemory }
    {
        self.depth = self.depth.max(part.depth);
        self.exprs.push(part.expr)?;
        Ok(())
    }
}

impl ParsedCase {
    /// No branches.
    pub fn empty(alloc: Global) -> ParsedCase
        ensures { branches_of result ≡ no_branches }
    {
        let branches = Vec::new(alloc);
        ParsedCase { branches, depth: 0 }
    }

    /// Adds a branch.
    pub fn push(&mut self, condition: Parsed, value: Parsed) -> Result<(), Halt>
        ensures ok { OnOk result (branches_of self.new ≡ record { arms = (branches_of self.old).arms ++ (expr_tree condition.expr, expr_tree value.expr) ∷ []; depth = max self.old.depth (max condition.depth value.depth) }) }
        ensures err { IfErr result IsMemory }
    {
        self.depth = self.depth.max(condition.depth.max(value.depth));
        let condition = condition.expr;
        let value = value.expr;
        self.branches.push(Branch { condition, value })?;
        Ok(())
    }
}
