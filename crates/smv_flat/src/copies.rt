//! Lists that are made of others.
ghost use Rattle.std.specs.Prelude.{◌≡◌, ◌++◌, ◌≤ℤ◌, ◌<ℤ◌, ◌+ℤ◌, pos, List, IfOk, Some};
ghost use Rattle.smv_tree.specs.declared.value.Value.{Value as SmvValue};
ghost use Rattle.smv_meaning.specs.Operators.{span_from, span_length};
ghost use Rattle.smv_flat.specs.Lists.{values_of, Answers};

use crate::{EvalFault, ValueList};
use smv_tree::Value;
use std::alloc::{AllocError, Global};

/// Another value that is the same.
pub(crate) fn copy_of(alloc: Global, v: &Value) -> Result<Value, AllocError>
    ensures { IfOk result (λ w. w ≡ v.now) }
{
    match v {
        Value::Truth(b) => Ok(Value::Truth(*b)),
        Value::Int(n) => Ok(Value::Int(*n)),
        Value::Word(w) => Ok(Value::Word(*w)),
        Value::Sym(name) => {
            let name = name.copy(alloc)?;
            Ok(Value::Sym(name))
        }
    }
}

/// Puts copies of more values behind others.
pub(crate) fn push_copies(
    alloc: Global,
    all: &mut Vec<Value>,
    more: &[Value],
) -> Result<(), AllocError>
    ensures { IfOk result (λ u. all.new.items ≡ all.old.items ++ more.now) }
{
    for v in more {
        all.push(copy_of(alloc, v)?)?;
    }
    Ok(())
}

/// Copies of these values.
pub(crate) fn copied(alloc: Global, values: &[Value]) -> Result<Vec<Value>, AllocError>
    ensures { IfOk result (λ v. v.items ≡ values.now) }
{
    let mut all = Vec::new(alloc);
    push_copies(alloc, &mut all, values)?;
    Ok(all)
}

/// The values of a list as a vector of their own.
pub(crate) fn into_vec(alloc: Global, list: ValueList<'_>) -> Result<Vec<Value>, AllocError>
    ensures { IfOk result (λ v. v.items ≡ values_of list.entry) }
{
    match list {
        ValueList::Many(all) => Ok(all),
        other => copied(alloc, other.as_slice()),
    }
}

/// The values of two lists in a row.
pub(crate) fn joined(
    alloc: Global,
    left: ValueList<'_>,
    right: ValueList<'_>,
) -> Result<Vec<Value>, AllocError>
    ensures { IfOk result (λ v. v.items ≡ values_of left.entry ++ values_of right.entry) }
{
    let mut all = into_vec(alloc, left)?;
    push_copies(alloc, &mut all, right.as_slice())?;
    Ok(all)
}

/// The list of a vector, if memory was there for it.
pub(crate) fn many<'a>(all: Result<Vec<Value>, AllocError>) -> Result<ValueList<'a>, EvalFault>
    ensures { (found : List SmvValue) → IfOk all (λ v. v.items ≡ found) →
        Answers result (Some found) }
{
    match all {
        Ok(all) => Ok(ValueList::Many(all)),
        Err(fault) => Err(EvalFault::NoMemory(fault)),
    }
}

/// Puts the first integer of a range behind others; the rest of the range is left.
#[tactic(auto, using(crate::proofs::Spans::one_more))]
fn push_first(all: &mut Vec<Value>, n: i64, high: i64) -> Result<(), AllocError>
    requires { n <ℤ high }
    ensures { IfOk result (λ u.
        all.old.items ++ span_from n (span_length n high)
        ≡ all.new.items ++ span_from (n +ℤ pos 1) (span_length (n +ℤ pos 1) high)) }
{
    all.push(Value::Int(n))?;
    Ok(())
}

/// The integers from the low end up to the high one, which is no less.
#[tactic(auto, using(crate::proofs::Spans::span_last))]
fn rising(alloc: Global, low: i64, high: i64) -> Result<Vec<Value>, AllocError>
    requires { low ≤ℤ high }
    ensures { IfOk result (λ v. v.items ≡ span_from low (span_length low high)) }
{
    let mut all = Vec::new(alloc);
    for n in low..high {
        push_first(&mut all, n, high)?;
    }
    all.push(Value::Int(high))?;
    Ok(all)
}

/// The integers from the low end to the high one.
pub(crate) fn span(alloc: Global, low: i64, high: i64) -> Result<Vec<Value>, AllocError>
    ensures { IfOk result (λ v. v.items ≡ span_from low (span_length low high)) }
{
    if low <= high {
        rising(alloc, low, high)
    } else {
        Ok(Vec::new(alloc))
    }
}
