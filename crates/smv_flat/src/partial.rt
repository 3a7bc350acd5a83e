ghost use Rattle.std.specs.Prelude.{◌≡◌, IfOk};
ghost use Rattle.smv_flat.specs.RunViews.{partial_of};

use crate::Stated;
use std::alloc::{AllocError, Global};

/// What is stated of each of several states, or of several inputs.
pub type Stateds = Vec<Stated>;

/// A partial trace: what is stated of each state and of each input and, if one is marked, the number
/// of the state, from 0, that the last one repeats.
#[derive(Debug, Drop)]
pub struct Partial {
    pub states: Stateds,
    pub inputs: Stateds,
    pub mark: Option<u32>,
}

fn stated_copies(alloc: Global, stateds: &[Stated]) -> Result<Stateds, AllocError>
    ensures { IfOk result (λ v. v.items ≡ stateds.now) }
{
    let mut all = Vec::new(alloc);
    for stated in stateds {
        all.push(stated.copy(alloc)?)?;
    }
    Ok(all)
}

impl Partial {
    /// Another partial trace that is the same.
    pub fn copy(&self, alloc: Global) -> Result<Partial, AllocError>
        ensures { IfOk result (λ p. partial_of p ≡ partial_of self.now) }
    {
        let states = stated_copies(alloc, self.states.as_slice())?;
        let inputs = stated_copies(alloc, self.inputs.as_slice())?;
        Ok(Partial {
            states,
            inputs,
            mark: self.mark,
        })
    }
}
