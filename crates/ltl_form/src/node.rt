/// A node of a formula in negation normal form. A number names an earlier node of its list.
#[derive(Clone, Copy, PartialEq, Eq, Hash)]
pub enum NnfNode {
    /// The atom of this number, from 0, and whether it is negated.
    Literal(u64, bool),
    And(u64, u64),
    Or(u64, u64),
    Next(u64),
    Until(u64, u64),
    Releases(u64, u64),
    Always(u64),
    Eventually(u64),
}
