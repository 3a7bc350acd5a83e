/// How much is encoded, and how much was learned.
#[derive(Clone, Copy, Debug, PartialEq, Eq)]
pub struct Counts {
    /// The frames of a path: none, where gates alone are asked about.
    pub frames: u64,
    /// The conjunctions among the nodes that have their clauses.
    pub gates: u64,
    /// The original clauses.
    pub clauses: u64,
    /// The conflict lines and the final lines.
    pub lines: u64,
}
