ghost use Rattle.smv_flat.specs.Tables.{numbers_of};

use crate::definition_row::{Row, row_at};
use crate::spots::slot;
use crate::{Flat, Moment};
use smv_tree::Value;

/// A flat model in a state and an input, where the values of its definitions are known.
#[derive(Clone, Copy)]
pub struct FlatMoment<'a> {
    pub(crate) flat: &'a Flat,
    pub(crate) state: &'a [Value],
    pub(crate) input: &'a [Value],
    pub(crate) rows: &'a [Row],
}

impl<'a> Moment for FlatMoment<'a> {
    ghost numbers = { numbers_of };

    fn variable(&self, number: u32) -> &[Value] {
        slot(self.flat, self.state, self.input, number)
    }

    fn definition(&self, number: u64) -> &[Value] {
        row_at(self.rows, number)
    }
}
