//! What the names of an expression lead to.
ghost use Rattle.std.specs.Prelude.{◌≡◌, ◌++◌, ℕ, List, Option, IfOk, map};
ghost use Rattle.smv_tree.specs.Trees.{expr_tree, trees, arms};
ghost use Rattle.smv_meaning.specs.Definitions.{names_in, names_in_all, names_in_arms};
ghost use Rattle.smv_names.specs.Branches.{branch_trees};

use smv_tree::{Branch, Expr, Path};
use std::alloc::AllocError;

/// What some paths of names lead to, by number.
pub trait Lookup {
    /// The number that each path of names leads to, if it leads to one.
    ghost found: { Self → List (List ℕ) → Option ℕ };

    /// The number that a path leads to, if it leads to one.
    fn find(&self, path: &Path) -> Option<usize>
        ensures { result ≡ found self.now path.now };
}

/// A row with a place for each name in a branch behind it.
#[cycle(add_references)]
fn with_branch<L: Lookup>(
    row: Vec<Option<usize>>,
    lookup: &L,
    branch: &Branch,
) -> Result<Vec<Option<usize>>, AllocError>
    ensures { IfOk result (λ r. r.items ≡ row.items ++ map (L.found lookup.now)
        (names_in (expr_tree branch.now.condition) ++ names_in (expr_tree branch.now.value))) }
{
    let row = with_references(row, lookup, &branch.condition)?;
    with_references(row, lookup, &branch.value)
}

/// A row with a place for each name in some branches behind it.
#[cycle(add_references)]
fn with_branches<L: Lookup>(
    row: Vec<Option<usize>>,
    lookup: &L,
    branches: &[Branch],
) -> Result<Vec<Option<usize>>, AllocError>
    ensures { IfOk result (λ r. r.items ≡ row.items ++ map (L.found lookup.now)
        (names_in_arms (arms (map branch_trees branches.now)))) }
{
    let mut row = row;
    for branch in branches {
        row = with_branch(row, lookup, branch)?;
    }
    Ok(row)
}

/// A row with a place for each name in some expressions behind it.
#[cycle(add_references)]
fn with_all<L: Lookup>(
    row: Vec<Option<usize>>,
    lookup: &L,
    es: &[Expr],
) -> Result<Vec<Option<usize>>, AllocError>
    ensures { IfOk result (λ r. r.items ≡ row.items ++ map (L.found lookup.now)
        (names_in_all (trees (map expr_tree es.now)))) }
{
    let mut row = row;
    for e in es {
        row = with_references(row, lookup, e)?;
    }
    Ok(row)
}

/// A row with a place for each name in an expression behind it, in the order of the text: what the
/// name leads to.
///
/// # Errors
///
/// `AllocError` where memory was refused.
#[cycle(add_references)]
pub fn with_references<L: Lookup>(
    row: Vec<Option<usize>>,
    lookup: &L,
    e: &Expr,
) -> Result<Vec<Option<usize>>, AllocError>
    ensures { IfOk result (λ r.
        r.items ≡ row.items ++ map (L.found lookup.now) (names_in (expr_tree e.now))) }
{
    match e {
        Expr::Truth(..) => Ok(row),
        Expr::Number(..) => Ok(row),
        Expr::Word(..) => Ok(row),
        Expr::Name(_, path) => {
            let mut row = row;
            row.push(lookup.find(path))?;
            Ok(row)
        }
        Expr::Span(..) => Ok(row),
        Expr::Set(_, es) => with_all(row, lookup, es.as_slice()),
        Expr::Case(_, branches) => with_branches(row, lookup, branches.as_slice()),
        Expr::If(_, condition, value, other) => {
            let row = with_references(row, lookup, condition)?;
            let row = with_references(row, lookup, value)?;
            with_references(row, lookup, other)
        }
        Expr::One(_, _, operand) => with_references(row, lookup, operand),
        Expr::Two(_, _, left, right) => {
            let row = with_references(row, lookup, left)?;
            with_references(row, lookup, right)
        }
        Expr::Select(_, operand, _, _) => with_references(row, lookup, operand),
        Expr::Next(_, operand) => with_references(row, lookup, operand),
        Expr::Widen(_, _, operand, _) => with_references(row, lookup, operand),
        Expr::Const(..) => Ok(row),
        Expr::Count(_, es) => with_all(row, lookup, es.as_slice()),
    }
}
