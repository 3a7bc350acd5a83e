ghost use Rattle.std.specs.Prelude.{◌≡◌, ◌++◌, IfOk};
ghost use Rattle.smv_values.specs.Answers.{told};
ghost use Rattle.smv_flat.specs.Lists.{values_of, Answers};

use smv_tree::Value;
use smv_values::{Outcome, TooLarge};
use std::alloc::{AllocError, Global};
use std::slice;

/// The values of an expression in their order. A single one takes no memory.
#[derive(Debug, Drop)]
pub enum ValueList<'a> {
    None,
    One(Value),
    Shown(&'a [Value]),
    Many(Vec<Value>),
}

/// Why the values of an expression are not told.
#[derive(Debug, Drop)]
pub enum EvalFault {
    /// A part that was looked at has a value, but none that the program can hold.
    TooLarge,
    /// Memory was refused.
    NoMemory(AllocError),
}

impl<'a> ValueList<'a> {
    /// The values.
    pub fn as_slice(&self) -> &[Value]
        ensures { result.now ≡ values_of self.now }
    {
        match self {
            ValueList::None => &[],
            ValueList::One(v) => slice::from_ref(v),
            ValueList::Shown(all) => all,
            ValueList::Many(all) => all.as_slice(),
        }
    }
}

/// The list of what an operator answered.
pub(crate) fn answered<'a>(outcome: Outcome) -> Result<ValueList<'a>, EvalFault>
    ensures { Answers result (told outcome) }
{
    match outcome {
        Ok(Some(v)) => Ok(ValueList::One(v)),
        Ok(None) => Ok(ValueList::None),
        Err(TooLarge) => Err(EvalFault::TooLarge),
    }
}
