ghost use Rattle.std.specs.Prelude.{◌≡◌, [], map, unwrap_or, slice_get, IfOk};
ghost use Rattle.smv_flat.specs.Lists.{values_of};
ghost use Rattle.smv_flat.specs.Tables.{row_values};

use crate::ValueList;
use crate::copies::{copied, copy_of};
use smv_tree::Value;
use std::alloc::{AllocError, Global};
use std::slice;

/// The values of a definition. A single one, but for the name of a symbol, takes no memory.
#[derive(Debug, Drop)]
pub(crate) enum Row {
    None,
    One(Value),
    Many(Vec<Value>),
}

impl Row {
    /// The values.
    pub(crate) fn as_slice(&self) -> &[Value]
        ensures { result.now ≡ row_values self.now }
    {
        match self {
            Row::None => &[],
            Row::One(v) => slice::from_ref(v),
            Row::Many(all) => all.as_slice(),
        }
    }

    /// Copies of these values.
    fn from_slice(alloc: Global, values: &[Value]) -> Result<Row, AllocError>
        ensures { IfOk result (λ r. row_values r ≡ values.now) }
    {
        match values {
            [] => Ok(Row::None),
            [v] => Ok(Row::One(copy_of(alloc, v)?)),
            _ => Ok(Row::Many(copied(alloc, values)?)),
        }
    }

    /// The values of a list, as a row of their own.
    pub(crate) fn of(alloc: Global, list: ValueList<'_>) -> Result<Row, AllocError>
        ensures { IfOk result (λ r. row_values r ≡ values_of list.entry) }
    {
        match list {
            ValueList::None => Ok(Row::None),
            ValueList::One(v) => Ok(Row::One(v)),
            ValueList::Shown(all) => Row::from_slice(alloc, all),
            ValueList::Many(all) => Ok(Row::Many(all)),
        }
    }
}

/// The values of a row by its number, or none behind the end.
#[tactic(auto, using(crate::proofs::Rows::row_law))]
pub(crate) fn row_at(rows: &[Row], number: u64) -> &[Value]
    ensures { result.now ≡ unwrap_or (slice_get (map row_values rows.now) number) [] }
{
    match rows.get(number as usize) {
        Some(row) => row.as_slice(),
        None => &[],
    }
}
