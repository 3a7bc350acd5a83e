ghost use Rattle.std.specs.Prelude.{◌≡◌, option_map, IfOk};
ghost use Rattle.smv_flat.specs.Given.{given};

use crate::copies::copied;
use smv_tree::Value;
use std::alloc::{AllocError, Global};
use std::marker::Model;

/// The values of the state and frozen variables, in their order.
#[derive(Debug, Drop)]
pub struct State {
    values: Vec<Value>,
}

impl Model for State {
    ghost use Rattle.std.specs.Prelude.{List};
    ghost use Rattle.smv_tree.specs.declared.value.Value.{Value as SmvValue};

    ghost Value = { List SmvValue };

    ghost view = { λ s. s.values.items };
}

impl State {
    /// The state of these values.
    pub fn from_vec(values: Vec<Value>) -> State
        ensures { result ≡ values.items }
    {
        State { values }
    }

    /// The values.
    pub fn as_slice(&self) -> &[Value]
        ensures { result.now ≡ self.now }
    {
        self.values.as_slice()
    }

    /// Another state of the same values.
    pub fn copy(&self, alloc: Global) -> Result<State, AllocError>
        ensures { IfOk result (λ s. s ≡ self.now) }
    {
        let values = copied(alloc, self.values.as_slice())?;
        Ok(State { values })
    }
}

/// The values of the input variables, in their order.
#[derive(Debug, Drop)]
pub struct Input {
    values: Vec<Value>,
}

impl Model for Input {
    ghost use Rattle.std.specs.Prelude.{List};
    ghost use Rattle.smv_tree.specs.declared.value.Value.{Value as SmvValue};

    ghost Value = { List SmvValue };

    ghost view = { λ i. i.values.items };
}

impl Input {
    /// The input of these values.
    pub fn from_vec(values: Vec<Value>) -> Input
        ensures { result ≡ values.items }
    {
        Input { values }
    }

    /// The values.
    pub fn as_slice(&self) -> &[Value]
        ensures { result.now ≡ self.now }
    {
        self.values.as_slice()
    }

    /// Another input of the same values.
    pub fn copy(&self, alloc: Global) -> Result<Input, AllocError>
        ensures { IfOk result (λ i. i ≡ self.now) }
    {
        let values = copied(alloc, self.values.as_slice())?;
        Ok(Input { values })
    }
}

/// The values of a state, or none.
pub(crate) fn given_state(state: Option<&State>) -> &[Value]
    ensures { result.now ≡ given (option_map (λ s. s.now) state.entry) }
{
    match state {
        Some(state) => state.as_slice(),
        None => &[],
    }
}

/// The values of an input, or none.
pub(crate) fn given_input(input: Option<&Input>) -> &[Value]
    ensures { result.now ≡ given (option_map (λ i. i.now) input.entry) }
{
    match input {
        Some(input) => input.as_slice(),
        None => &[],
    }
}
