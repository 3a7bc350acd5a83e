//! The unknown names of an expression and of a formula.
ghost use Rattle.std.specs.Prelude.{◌≡◌, ◌++◌, ◌∷◌, [], ℕ, List, Bool, IfOk, map, if◌then◌else◌};
ghost use Rattle.smv_tree.specs.Trees.{expr_tree, trees, arms};
ghost use Rattle.smv_tree.specs.Models.{formula_claim};
ghost use Rattle.type_fault.specs.First.{earliest};
ghost use Rattle.type_fault.specs.declared.fault.TypeFault.TheVariants as faults;
ghost use Rattle.smv_names.specs.Unknown.{unknown_in, unknown_in_all, unknown_in_arms, unknown_in_claim};
ghost use Rattle.smv_names.specs.Branches.{branch_trees};

use smv_tree::{Branch, Expr, Formula, Path, Place};
use std::alloc::{AllocError, Global};
use type_fault::{TypeFault, earlier};

/// Which paths of names stand for something.
pub trait Known {
    /// Whether each path of names stands for something.
    ghost known: { Self → List (List ℕ) → Bool };

    /// Whether a path stands for something.
    fn is_known(&self, path: &Path) -> bool
        ensures { result ≡ known self.now path.now };
}

/// That a name is not known.
#[tactic(auto, unfolding(type_fault::specs::First::earliest))]
fn unknown_name<K: Known>(
    alloc: Global,
    known: &K,
    place: Place,
    path: &Path,
) -> Result<Option<TypeFault>, AllocError>
    ensures { IfOk result (λ f. f ≡ earliest
        (if K.known known.now path.now then [] else faults.Unknown place path.now ∷ [])) }
{
    if known.is_known(path) {
        Ok(None)
    } else {
        Ok(Some(TypeFault::Unknown(place, path.copy(alloc)?)))
    }
}

/// The first unknown name of a branch.
#[cycle(first_unknown)]
#[tactic(auto, using(type_fault::proofs::Firsts::earliest_both))]
fn unknown_in_branch<K: Known>(
    alloc: Global,
    known: &K,
    branch: &Branch,
) -> Result<Option<TypeFault>, AllocError>
    ensures { IfOk result (λ f. f ≡ earliest
        (unknown_in (K.known known.now) (expr_tree branch.now.condition)
        ++ unknown_in (K.known known.now) (expr_tree branch.now.value))) }
{
    let condition = unknown_in(alloc, known, &branch.condition)?;
    let value = unknown_in(alloc, known, &branch.value)?;
    Ok(earlier(condition, value))
}

/// The first unknown name of some branches.
#[cycle(first_unknown)]
fn unknown_in_branches<K: Known>(
    alloc: Global,
    known: &K,
    branches: &[Branch],
) -> Result<Option<TypeFault>, AllocError>
    ensures { IfOk result (λ f. f ≡ earliest
        (unknown_in_arms (K.known known.now) (arms (map branch_trees branches.now)))) }
{
    let mut first = None;
    for branch in branches {
        first = earlier(first, unknown_in_branch(alloc, known, branch)?);
    }
    Ok(first)
}

/// The first unknown name of some expressions.
#[cycle(first_unknown)]
pub(crate) fn unknown_in_all<K: Known>(
    alloc: Global,
    known: &K,
    es: &[Expr],
) -> Result<Option<TypeFault>, AllocError>
    ensures { IfOk result (λ f. f ≡ earliest
        (unknown_in_all (K.known known.now) (trees (map expr_tree es.now)))) }
{
    let mut first = None;
    for e in es {
        first = earlier(first, unknown_in(alloc, known, e)?);
    }
    Ok(first)
}

/// The first unknown name of an expression.
///
/// # Errors
///
/// `AllocError` where memory was refused.
#[cycle(first_unknown)]
#[tactic(auto, using(type_fault::proofs::Firsts::earliest_both), unfolding(type_fault::specs::First::earliest))]
pub fn unknown_in<K: Known>(
    alloc: Global,
    known: &K,
    e: &Expr,
) -> Result<Option<TypeFault>, AllocError>
    ensures { IfOk result (λ f. f ≡ earliest (unknown_in (K.known known.now) (expr_tree e.now))) }
{
    match e {
        Expr::Truth(..) => Ok(None),
        Expr::Number(..) => Ok(None),
        Expr::Word(..) => Ok(None),
        Expr::Name(place, path) => unknown_name(alloc, known, *place, path),
        Expr::Span(..) => Ok(None),
        Expr::Set(_, es) => unknown_in_all(alloc, known, es.as_slice()),
        Expr::Case(_, branches) => unknown_in_branches(alloc, known, branches.as_slice()),
        Expr::If(_, condition, value, other) => {
            let condition = unknown_in(alloc, known, condition)?;
            let value = unknown_in(alloc, known, value)?;
            let other = unknown_in(alloc, known, other)?;
            Ok(earlier(condition, earlier(value, other)))
        }
        Expr::One(_, _, operand) => unknown_in(alloc, known, operand),
        Expr::Two(_, _, left, right) => {
            let left = unknown_in(alloc, known, left)?;
            let right = unknown_in(alloc, known, right)?;
            Ok(earlier(left, right))
        }
        Expr::Select(_, operand, _, _) => unknown_in(alloc, known, operand),
        Expr::Next(_, operand) => unknown_in(alloc, known, operand),
        Expr::Widen(_, _, operand, _) => unknown_in(alloc, known, operand),
        Expr::Const(..) => Ok(None),
        Expr::Count(_, es) => unknown_in_all(alloc, known, es.as_slice()),
    }
}

/// The first unknown name of a formula.
#[tactic(auto, using(type_fault::proofs::Firsts::earliest_both))]
pub fn unknown_in_formula<K: Known>(
    alloc: Global,
    known: &K,
    f: &Formula,
) -> Result<Option<TypeFault>, AllocError>
    ensures { IfOk result (λ r. r ≡
        earliest (unknown_in_claim (K.known known.now) (formula_claim f.now))) }
{
    match f {
        Formula::Atom(e) => unknown_in(alloc, known, e),
        Formula::Not(part) => unknown_in_formula(alloc, known, part),
        Formula::Next(part) => unknown_in_formula(alloc, known, part),
        Formula::Always(part) => unknown_in_formula(alloc, known, part),
        Formula::Eventually(part) => unknown_in_formula(alloc, known, part),
        Formula::Two(_, left, right) => {
            let left = unknown_in_formula(alloc, known, left)?;
            let right = unknown_in_formula(alloc, known, right)?;
            Ok(earlier(left, right))
        }
    }
}
