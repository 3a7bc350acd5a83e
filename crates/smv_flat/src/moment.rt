ghost use Rattle.std.specs.Prelude.{◌≡◌, [], slice_get, unwrap_or};
ghost use Rattle.smv_meaning.specs.FlatTrees.{Numbers, slot, def, name_values};

use smv_tree::{Value, Values};

/// The values of the variables and of the definitions of a flat model at a moment, by number.
pub trait Moment {
    ghost numbers: { Self → Numbers };

    /// The values of a variable.
    fn variable(&self, number: u32) -> &[Value]
        ensures { result.now ≡ name_values (Self.numbers self.now) (slot number) };

    /// The values of a definition.
    fn definition(&self, number: u64) -> &[Value]
        ensures { result.now ≡ name_values (Self.numbers self.now) (def number) };
}

/// A moment as lists of values, which may be those of a run.
#[derive(Clone, Copy, Debug)]
pub struct MomentLists<'a> {
    pub variables: &'a [Values],
    pub definitions: &'a [Values],
}

/// The values at a place, or none behind the end.
fn list_at(lists: &[Values], number: u64) -> &[Value]
    ensures { result.now ≡ unwrap_or (slice_get lists.now number) [] }
{
    match lists.get(number as usize) {
        Some(values) => values.as_slice(),
        None => &[],
    }
}

impl<'a> Moment for MomentLists<'a> {
    ghost numbers = { λ m. record { slots = m.variables.now; defs = m.definitions.now } };

    fn variable(&self, number: u32) -> &[Value] {
        list_at(self.variables, number as u64)
    }

    fn definition(&self, number: u64) -> &[Value] {
        list_at(self.definitions, number)
    }
}
