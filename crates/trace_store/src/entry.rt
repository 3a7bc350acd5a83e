use smv_flat::{Partial, Run};

/// Where a whole trace comes from.
#[derive(Clone, Copy, Debug, PartialEq, Eq)]
pub enum Origin {
    Counterexample,
    Simulation,
    Completed,
    Read,
}

/// A trace: a run with its origin, or a partial one that was read.
#[derive(Debug, Drop)]
pub enum Entry {
    Whole(Origin, Run),
    Part(Partial),
}
