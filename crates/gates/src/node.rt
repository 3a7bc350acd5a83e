use crate::lit::Lit;

/// What a node of the gates is.
#[derive(Clone, Copy)]
pub enum Node {
    /// The constant, which is node 0.
    True,
    /// A free truth value.
    Input,
    /// The conjunction of two literals, of two earlier nodes.
    And(Lit, Lit),
}
