//! Laws of the definitions, each the contract of a function that does nothing.

ghost use Rattle.std.specs.Prelude.{List};
ghost use Rattle.gates.specs.declared.node.Node.{Node};
ghost use Rattle.gates.specs.Nodes.{WellFormed, Grows};
ghost use Rattle.sat_log.specs.Literal.{Literal};
ghost use Rattle.sat_link.specs.Encoding.{definitions};
ghost use Rattle.sat_link.specs.Definitional.{IsDefinitional, IsWhole};

/// The clauses of nodes define them: they are true exactly where each node has a value that it may
/// have.
pub fn clauses_define_nodes()
    ensures definitional { (nodes : List Node) → IsDefinitional nodes (definitions nodes) }
    ensures whole { (nodes : List Node) → WellFormed nodes → IsWhole nodes (definitions nodes) }
{}

/// Clauses that define gates and demand nothing do so still when the gates have grown.
pub fn definitions_stay()
    ensures { (old new : List Node) (clauses : List (List Literal)) →
        Grows old new → IsDefinitional old clauses → IsDefinitional new clauses }
{}
