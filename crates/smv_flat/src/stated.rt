ghost use Rattle.std.specs.Prelude.{◌≡◌, map, IfOk};
ghost use Rattle.std.specs.List.Sorted.{IsStrictlyIncreasing};
ghost use Rattle.smv_flat.specs.StatedViews.{stated_of};

use crate::copies::copy_of;
use smv_tree::Value;
use std::alloc::{AllocError, Global};
use std::marker::Model;

/// A value of a variable, which is given by its number.
#[derive(Debug, Drop)]
pub struct StatedValue {
    pub variable: u32,
    pub value: Value,
}

/// Values of some variables, in rising numbers.
#[derive(Debug, Drop)]
pub struct Stated {
    entries: Vec<StatedValue>,
}

impl Model for Stated {
    ghost use Rattle.std.specs.Prelude.{List, map};
    ghost use Rattle.std.specs.List.Sorted.{IsStrictlyIncreasing};
    ghost use Rattle.smv_meaning.specs.Marks.{Stated as StatedOne};
    ghost use Rattle.smv_flat.specs.StatedViews.{stated_of};

    ghost Value = { List StatedOne };

    ghost view = { λ s. map stated_of s.entries.items };

    ghost invariant = { λ s. IsStrictlyIncreasing (map (λ e. e.variable) s.entries.items) };
}

fn entry_copies(alloc: Global, entries: &[StatedValue]) -> Result<Vec<StatedValue>, AllocError>
    ensures { IfOk result (λ v. v.items ≡ entries.now) }
{
    let mut all = Vec::new(alloc);
    for one in entries {
        let value = copy_of(alloc, &one.value)?;
        all.push(StatedValue {
            variable: one.variable,
            value,
        })?;
    }
    Ok(all)
}

impl Stated {
    /// What states these values, whose variables rise.
    pub fn from_vec(entries: Vec<StatedValue>) -> Stated
        requires { IsStrictlyIncreasing (map (λ e. e.variable) entries.items) }
        ensures { result ≡ map stated_of entries.items }
    {
        Stated { entries }
    }

    /// The stated values in order.
    pub fn as_slice(&self) -> &[StatedValue]
        ensures { map stated_of result.now ≡ self.now }
    {
        self.entries.as_slice()
    }

    /// Another one that states the same.
    pub fn copy(&self, alloc: Global) -> Result<Stated, AllocError>
        ensures { IfOk result (λ s. s ≡ self.now) }
    {
        let entries = entry_copies(alloc, self.entries.as_slice())?;
        Ok(Stated { entries })
    }
}
