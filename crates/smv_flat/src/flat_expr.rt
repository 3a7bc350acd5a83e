ghost use Rattle.std.specs.Prelude.{◌≡◌, IfOk};
ghost use Rattle.smv_tree.specs.declared.value.Value.TheVariants.{Sym};

use crate::copies::copy_of;
use smv_tree::{Name, Op1, Op2, Place, Value, WordVal};
use std::alloc::{AllocError, Global};
use std::marker::Model;

/// A symbol of an enumeration, kept as the value that it is.
#[derive(Debug, Drop)]
pub struct Symbol {
    value: Value,
}

impl Model for Symbol {
    ghost use Rattle.std.specs.Prelude.{◌≡◌, ℕ, List};
    ghost use Rattle.smv_tree.specs.declared.value.Value.TheVariants.{Sym};
    ghost use Rattle.smv_flat.specs.Symbols.{symbol_name};

    ghost Value = { List ℕ };

    ghost view = { λ s. symbol_name s.value };

    ghost invariant = { λ s. s.value ≡ Sym (symbol_name s.value) };
}

impl Symbol {
    /// The symbol of this name.
    pub fn new(name: Name) -> Symbol
        ensures { result ≡ name }
    {
        Symbol {
            value: Value::Sym(name),
        }
    }

    /// Another symbol of the same name.
    pub fn copy(&self, alloc: Global) -> Result<Symbol, AllocError>
        ensures { IfOk result (λ s. s ≡ self.now) }
    {
        let value = copy_of(alloc, &self.value)?;
        Ok(Symbol { value })
    }

    /// The value that the symbol is.
    pub fn value(&self) -> &Value
        ensures { result.now ≡ Sym self.now }
    {
        &self.value
    }
}

/// A name: the number of a variable or of a definition, from 0 in the order of its list, or a
/// symbol.
#[derive(Debug, Drop)]
pub enum FlatName {
    Variable(u32),
    Definition(u64),
    Symbol(Symbol),
}

/// An expression of a flat model, with the variants of `smv_tree::Expr`.
#[cycle(flat)]
#[derive(Debug, Drop)]
pub enum FlatExpr {
    Truth(Place, bool),
    Number(Place, u64),
    Word(Place, WordVal),
    Name(Place, FlatName),
    Span(Place, i64, i64),
    Set(Place, FlatExprs),
    Case(Place, FlatBranches),
    If(Place, Box<FlatExpr>, Box<FlatExpr>, Box<FlatExpr>),
    One(Place, Op1, Box<FlatExpr>),
    Two(Place, Op2, Box<FlatExpr>, Box<FlatExpr>),
    Select(Place, Box<FlatExpr>, u32, u32),
    Next(Place, Box<FlatExpr>),
    Widen(Place, bool, Box<FlatExpr>, u32),
    Const(Place, bool, i64, u32),
    Count(Place, FlatExprs),
}

/// Expressions in order.
pub type FlatExprs = Vec<FlatExpr>;

/// A branch of a `case`.
#[cycle(flat)]
#[derive(Debug, Drop)]
pub struct FlatBranch {
    pub condition: FlatExpr,
    pub value: FlatExpr,
}

/// The branches of a `case` in order.
pub type FlatBranches = Vec<FlatBranch>;
