ghost use Rattle.std.specs.Prelude.{◌≡◌, IfOk};
ghost use Rattle.smv_flat.specs.RunViews.{marked_run};

use crate::{Input, State};
use std::alloc::{AllocError, Global};

/// A run: its states, the inputs between them and, if one is marked, the number of the state, from 0,
/// that the last one repeats.
#[derive(Debug, Drop)]
pub struct Run {
    pub states: States,
    pub inputs: Inputs,
    pub mark: Option<u32>,
}

/// States in order.
pub type States = Vec<State>;

/// Inputs in order.
pub type Inputs = Vec<Input>;

fn state_copies(alloc: Global, states: &[State]) -> Result<States, AllocError>
    ensures { IfOk result (λ v. v.items ≡ states.now) }
{
    let mut all = Vec::new(alloc);
    for state in states {
        all.push(state.copy(alloc)?)?;
    }
    Ok(all)
}

fn input_copies(alloc: Global, inputs: &[Input]) -> Result<Inputs, AllocError>
    ensures { IfOk result (λ v. v.items ≡ inputs.now) }
{
    let mut all = Vec::new(alloc);
    for input in inputs {
        all.push(input.copy(alloc)?)?;
    }
    Ok(all)
}

impl Run {
    /// Another run that is the same.
    pub fn copy(&self, alloc: Global) -> Result<Run, AllocError>
        ensures { IfOk result (λ r. marked_run r ≡ marked_run self.now) }
    {
        let states = state_copies(alloc, self.states.as_slice())?;
        let inputs = input_copies(alloc, self.inputs.as_slice())?;
        Ok(Run {
            states,
            inputs,
            mark: self.mark,
        })
    }
}
