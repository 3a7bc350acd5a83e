use crate::SBits;

/// What a search comes to.
#[derive(Debug, Drop)]
pub enum Verdict {
    /// All clauses and all that is wanted are true under these truth values.
    Yes(SBits),
    /// What is wanted can't be true, by the final line of this id.
    No(u64),
    /// The budget of this many conflict lines is spent, and nothing is known.
    Spent(u64),
}
