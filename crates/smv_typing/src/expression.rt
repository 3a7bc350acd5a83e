//! The judgement of an expression.
ghost use Rattle.std.specs.Prelude.{◌≡◌, IfOk, map};
ghost use Rattle.smv_tree.specs.Trees.{expr_tree, trees, arms};
ghost use Rattle.smv_typing.specs.Judging.{judged, all_judged, arms_judged, both, pair};
ghost use Rattle.smv_typing.specs.Firsts.{firsts};
ghost use Rattle.smv_typing.specs.Kept.{branch_trees};

use crate::judged::{append, append_branch, at, named, pair};
use crate::nodes::{
    cases_at, choice_at, count_at, next_at, one_at, select_at, set_at, two_at, widen_at,
};
use crate::typings::Typings;
use crate::{Judged, Names, Scope};
use smv_kinds::{Sort, Typing, const_typing, number_typing, span_typing, word_typing};
use smv_tree::{Branch, Expr};
use std::alloc::{AllocError, Global};

/// The condition and the value of a branch.
#[cycle(judge)]
fn judge_branch<N: Names>(
    alloc: Global,
    names: &N,
    scope: Scope,
    branch: &Branch,
) -> Result<Judged<(Typing, Typing)>, AllocError>
    ensures { IfOk result (λ j. j ≡ firsts (both pair
        (judged (N.told names.now) scope (expr_tree branch.now.condition))
        (judged (N.told names.now) scope (expr_tree branch.now.value)))) }
{
    let condition = judge(alloc, names, scope, &branch.condition)?;
    let value = judge(alloc, names, scope, &branch.value)?;
    Ok(pair(condition, value))
}

/// Several expressions.
#[cycle(judge)]
fn judge_all<N: Names>(
    alloc: Global,
    names: &N,
    scope: Scope,
    es: &[Expr],
) -> Result<Judged<Typings>, AllocError>
    ensures { IfOk result (λ j.
        j ≡ firsts (all_judged (N.told names.now) scope (trees (map expr_tree es.now)))) }
{
    let mut all = Ok(Typings::new(alloc));
    for e in es {
        all = append(all, judge(alloc, names, scope, e)?)?;
    }
    Ok(all)
}

/// The branches of a case.
#[cycle(judge)]
fn judge_branches<N: Names>(
    alloc: Global,
    names: &N,
    scope: Scope,
    branches: &[Branch],
) -> Result<Judged<(Typings, Typings)>, AllocError>
    ensures { IfOk result (λ j.
        j ≡ firsts (arms_judged (N.told names.now) scope (arms (map branch_trees branches.now)))) }
{
    let mut all = Ok((Typings::new(alloc), Typings::new(alloc)));
    for branch in branches {
        all = append_branch(all, judge_branch(alloc, names, scope, branch)?)?;
    }
    Ok(all)
}

/// The type of an expression, or the first of its faults.
///
/// # Errors
///
/// `AllocError` where memory is refused.
#[cycle(judge)]
#[tactic(auto, unfolding(crate::specs::Judging::judged))]
pub fn judge<N: Names>(
    alloc: Global,
    names: &N,
    scope: Scope,
    e: &Expr,
) -> Result<Judged<Typing>, AllocError>
    ensures { IfOk result (λ j. j ≡ firsts (judged (N.told names.now) scope (expr_tree e.now))) }
{
    match e {
        Expr::Truth(..) => Ok(Ok(Typing::single(Sort::Boolean))),
        Expr::Number(place, n) => Ok(at(*place, number_typing(*n))),
        Expr::Word(place, word) => Ok(at(*place, word_typing(word))),
        Expr::Name(place, path) => named(alloc, scope, *place, path, names.standing(path)),
        Expr::Span(place, low, high) => Ok(at(*place, span_typing(*low, *high))),
        Expr::Set(place, es) => {
            let members = judge_all(alloc, names, scope, es.as_slice())?;
            Ok(set_at(*place, members))
        }
        Expr::Case(place, branches) => {
            let branches = judge_branches(alloc, names, scope, branches.as_slice())?;
            Ok(cases_at(*place, branches))
        }
        Expr::If(place, condition, value, other) => {
            let condition = judge(alloc, names, scope, condition)?;
            let value = judge(alloc, names, scope, value)?;
            let other = judge(alloc, names, scope, other)?;
            Ok(choice_at(*place, pair(condition, pair(value, other))))
        }
        Expr::One(place, operator, operand) => {
            let operand = judge(alloc, names, scope, operand)?;
            Ok(one_at(*place, *operator, operand))
        }
        Expr::Two(place, operator, left, right) => {
            let left = judge(alloc, names, scope, left)?;
            let right = judge(alloc, names, scope, right)?;
            Ok(two_at(*place, *operator, pair(left, right)))
        }
        Expr::Select(place, operand, high, low) => {
            let operand = judge(alloc, names, scope, operand)?;
            Ok(select_at(*place, *high, *low, operand))
        }
        Expr::Next(place, operand) => {
            let operand = judge(alloc, names, scope.within_next(), operand)?;
            Ok(next_at(scope, *place, operand))
        }
        Expr::Widen(place, resize, operand, count) => {
            let operand = judge(alloc, names, scope, operand)?;
            Ok(widen_at(*place, *resize, *count, operand))
        }
        Expr::Const(place, signed, _, width) => Ok(at(*place, const_typing(*signed, *width))),
        Expr::Count(place, es) => {
            let operands = judge_all(alloc, names, scope, es.as_slice())?;
            Ok(count_at(*place, operands))
        }
    }
}
