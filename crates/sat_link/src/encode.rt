ghost use Rattle.std.specs.Prelude.{◌≡◌, ◌+◌, ◌^◌, ◌<◌, ◌≤◌, ◌++◌, max, map, IfOk, OnOk, OnErr};
ghost use Rattle.gates.specs.Literal.{span};
ghost use Rattle.gates.specs.Nodes.{StandsAt};
ghost use Rattle.sat_log.specs.Lines.{original};
ghost use Rattle.sat_link.specs.Encoding.{encoded, all_encoded, joint_clauses, clauses_of};

use gates::{Lit, Lits, Node};
use sat_core::Solver;
use sat_log::{SLit, SLits};
use std::alloc::{AllocError, Global};

/// The literal of a node's variable, with the same sign.
fn encode(l: Lit) -> SLit
    requires { l.node + 1 < 2 ^ 63 }
    ensures { result ≡ encoded l }
{
    SLit::new(l.node() + 1, l.negative())
}

/// The literals of the variables of nodes.
pub(crate) fn encode_all(alloc: Global, ls: &Lits) -> Result<SLits, AllocError>
    requires { span ls.now < 2 ^ 63 }
    ensures { IfOk result (λ c. c ≡ all_encoded ls.now) }
{
    let mut all = SLits::new(alloc);
    for i in 0..ls.len() {
        all.push(encode(ls.get(i)))?;
    }
    Ok(all)
}

/// The clauses that define the conjunction of two literals (Tseitin 1968).
fn and_clauses(alloc: Global, this: SLit, a: SLit, b: SLit) -> Result<Vec<SLits>, AllocError>
    ensures { IfOk result (λ cs. cs.items ≡ joint_clauses this a b) }
{
    let first = SLits::from_slice(alloc, &[this.negated(), a])?;
    let second = SLits::from_slice(alloc, &[this.negated(), b])?;
    let both = SLits::from_slice(alloc, &[this, a.negated(), b.negated()])?;
    Ok(vec![in alloc; first, second, both]?)
}

/// The clauses that define a node.
fn clauses(alloc: Global, n: u64, node: &Node) -> Result<Vec<SLits>, AllocError>
    requires stands { StandsAt n node.now }
    requires fits { n + 1 < 2 ^ 63 }
    ensures { IfOk result (λ cs. cs.items ≡ clauses_of n node.now) }
{
    let this = encode(Lit::positive(n));
    match *node {
        Node::True => Ok(vec![in alloc; SLits::from_slice(alloc, &[this])?]?),
        Node::Input => Ok(Vec::new(alloc)),
        Node::And(a, b) => and_clauses(alloc, this, encode(a), encode(b)),
    }
}

/// Adds the variable of node `n` where it lacks.
fn add_variable(solver: &mut Solver, n: u64) -> Result<(), AllocError>
    requires next { n ≤ solver.old.variables }
    ensures exists { OnOk result (n < solver.new.variables) }
    ensures ok { OnOk result (solver.new.variables ≡ max solver.old.variables (n + 1)) }
    ensures err { OnErr result (solver.new.variables ≡ solver.old.variables) }
    ensures log { solver.new.log ≡ solver.old.log }
{
    if n < solver.variables() {
        return Ok(());
    }
    let _variable = solver.new_var()?;
    Ok(())
}

/// Adds the clauses of node `n`: all of them, or none.
pub(crate) fn define(
    alloc: Global,
    solver: &mut Solver,
    n: u64,
    node: &Node,
) -> Result<(), AllocError>
    requires stands { StandsAt n node.now }
    requires fits { n + 1 < 2 ^ 63 }
    requires next { n ≤ solver.old.variables }
    ensures variables { OnOk result (solver.new.variables ≡ max solver.old.variables (n + 1)) }
    ensures no_fewer { solver.old.variables ≤ solver.new.variables }
    ensures no_more { solver.new.variables ≤ max solver.old.variables (n + 1) }
    ensures ok { OnOk result (solver.new.log ≡
        solver.old.log ++ map original (clauses_of n node.now)) }
    ensures err { OnErr result (solver.new.log ≡ solver.old.log) }
{
    add_variable(solver, n)?;
    let clauses = clauses(alloc, n, node)?;
    solver.add_clauses(clauses.as_slice())
}
