//! What may stand in an expression, beside constants and what a state gives.
ghost use Rattle.std.specs.Prelude.{◌≡◌};
ghost use Rattle.smv_typing.specs.Judging.{within_next};

/// Whether the next state and the input of a step may be spoken of.
#[derive(Clone, Copy, Debug, PartialEq, Eq)]
pub struct Scope {
    /// Whether `next` may stand.
    pub next: bool,
    /// Whether an input may stand, or the name of a define or a parameter that speaks of one.
    pub inputs: bool,
}

/// A constraint of states, the right side of an assignment to a state, and an atom of a formula.
pub const STATE: Scope = Scope {
    next: false,
    inputs: false,
};

/// The body of a define, and an actual parameter.
pub const DEFINITION: Scope = Scope {
    next: false,
    inputs: true,
};

/// A constraint of steps, and the right side of an assignment to the next state.
pub const STEP: Scope = Scope {
    next: true,
    inputs: true,
};

impl Scope {
    /// What may stand inside `next`: there is no input of the next state.
    pub(crate) fn within_next(self) -> Scope
        ensures { result ≡ within_next self }
    {
        Scope {
            next: self.next,
            inputs: false,
        }
    }
}
