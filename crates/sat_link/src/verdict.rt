use gates::Bits;

/// What a question over gates comes to.
#[derive(Drop)]
pub enum Verdict {
    /// All that is wanted is true under these truth values.
    Yes(Bits),
    /// What is wanted can't be true, by the final line of this id.
    No(u64),
    /// The budget of this many conflict lines is spent, and nothing is known.
    Spent(u64),
}
