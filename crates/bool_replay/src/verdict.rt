use outside::Text;
use smv_tree::Place;

/// The constraint at which a replay stops, by the place of its section word.
#[derive(Clone, Copy, Debug, PartialEq, Eq)]
pub enum Cause {
    Init(Place),
    Trans(Place),
}

/// What is said of the text of a trace.
#[derive(Debug, Drop)]
pub enum Verdict {
    /// The trace is a run of so many states.
    Executed(u64),
    /// The trace is no run: the state, from 1, at which its replay stops, and the cause.
    Stops(u64, Cause),
    /// A section lacks a value: the line of the first such section, and the first name that it lacks.
    NoValue(u64, Text),
    /// The text is none of the form that can be replayed so far.
    NotBuilt,
}
