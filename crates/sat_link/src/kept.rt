ghost use Rattle.std.specs.Prelude.{◌≡◌, ◌+◌, ◌++◌, ◌∷◌, ◌≤◌, [], length, max, count_by, IfOk, OnOk, OnErr};
ghost use Rattle.gates.specs.Nodes.{StandsAt, WellFormed, Grows, AllBelong, is_conjunction};
ghost use Rattle.sat_log.specs.Clause.{HasDistinctVariables};
ghost use Rattle.sat_log.specs.Checking.{IsUpTo};
ghost use Rattle.sat_log.specs.Accepted.{originals};
ghost use Rattle.sat_log.specs.Learned.{AllFresh};
ghost use Rattle.sat_core.specs.Assignment.{IsSolution as IsAssignment, HasNoSolution as HasNoAssignment};
ghost use Rattle.sat_core.specs.Gained.{AreLearned};
ghost use Rattle.sat_core.specs.Gains.{Gains, outcome as outcome_found};
ghost use Rattle.sat_core.specs.Verdicts.{IfYes as IfFoundYes, IfNo as IfFoundNo};
ghost use Rattle.sat_link.specs.Encoding.{all_encoded};
ghost use Rattle.sat_link.specs.Definitional.{IsDefinitional, IsWhole};
ghost use Rattle.sat_link.specs.Contents.{HasDefinitions, AddsOriginals, GrowsTowards};
ghost use Rattle.sat_link.specs.Answers.{HasDistinctNodes, IsSolution, HasNoSolution, IfYes, IfNo, IsValued, Tells, outcome};

use crate::bits::bits_of;
use crate::encode::{define, encode_all};
use crate::{Counts, Verdict};
use gates::{Gates, Lits, Node};
use sat_core::{Budget, Solver, Verdict as Found};
use sat_log::{Log, SLits};
use std::alloc::{AllocError, Global};
use std::marker::Model;

/// A solver that is kept over gates that grow (Eén and Sörensson 2003). Node `n` is its variable `n
/// + 1`.
#[derive(Drop)]
pub struct Kept {
    alloc: Global,
    solver: Solver,
    /// The nodes that have their clauses.
    nodes: Vec<Node>,
}

impl Model for Kept {
    ghost use Rattle.sat_link.specs.Contents.{Contents, KeepsClauses};

    ghost Value = { Contents };

    ghost view = { λ k. record {
      variables = k.solver.variables;
      nodes = k.nodes.items;
      log = k.solver.log;
    } };

    ghost invariant = { λ k. KeepsClauses k.nodes.items k.solver };
}

impl Kept {
    /// A solver in which no node has clauses.
    ///
    /// # Errors
    ///
    /// `AllocError` where memory is refused.
    pub fn new(alloc: Global) -> Result<Kept, AllocError>
        ensures { IfOk result (λ k. k ≡ record { variables = 0; nodes = []; log = [] }) }
    {
        Ok(Kept {
            alloc,
            solver: Solver::new(alloc)?,
            nodes: Vec::new(alloc),
        })
    }

    /// How many nodes have their clauses.
    fn nodes(&self) -> u64
        ensures count { result ≡ length self.now.nodes }
        ensures kept { HasDefinitions self.now }
    {
        self.nodes.len() as u64
    }

    /// Gives the next node its clauses: all of them, or none.
    fn define_next(&mut self, node: Node) -> Result<(), AllocError>
        requires { StandsAt (length self.old.nodes) node }
        ensures ok { OnOk result (self.new.nodes ≡ self.old.nodes ++ node ∷ []) }
        ensures err { OnErr result (self.new.nodes ≡ self.old.nodes) }
        ensures variables { OnOk result
            (self.new.variables ≡ max self.old.variables (length self.new.nodes)) }
        ensures no_fewer { self.old.variables ≤ self.new.variables }
        ensures no_more { self.new.variables ≤ max self.old.variables (length self.old.nodes + 1) }
        ensures log { AddsOriginals self.old.log self.new.log }
        ensures kept { HasDefinitions self.new }
    {
        self.nodes.reserve(1)?;
        let n = self.nodes.len() as u64;
        define(self.alloc, &mut self.solver, n, &node)?;
        self.nodes.push(node).unwrap();
        Ok(())
    }

    /// Gives each node of the gates its clauses.
    fn define_all(&mut self, g: &Gates) -> Result<(), AllocError>
        requires { Grows self.old.nodes g.now }
        ensures nodes { OnOk result (self.new.nodes ≡ g.now) }
        ensures variables { OnOk result
            (self.new.variables ≡ max self.old.variables (length g.now)) }
        ensures towards { GrowsTowards g.now self.old self.new }
        ensures kept { HasDefinitions self.new }
        ensures well_formed { WellFormed g.now }
    {
        for n in self.nodes()..g.nodes() {
            self.define_next(g.node(n))?;
        }
        Ok(())
    }

    /// Asks the solver, for literals of its variables.
    fn search(&mut self, want: &SLits, budget: Budget) -> Result<Found, AllocError>
        requires distinct { HasDistinctVariables want.now }
        requires exist { IsUpTo (length self.old.nodes) want.now }
        ensures yes { IfFoundYes result (IsAssignment self.new.variables self.new.log want.now) }
        ensures variables { self.new.variables ≡ self.old.variables }
        ensures refuted { IfFoundNo result (λ _. HasNoAssignment self.new.log want.now) }
        ensures gains { Gains self.new.variables budget want.now self.old.log self.new.log
            (outcome_found result) }
        ensures nodes { self.new.nodes ≡ self.old.nodes }
        ensures kept { HasDefinitions self.new }
    {
        self.solver.solve(want, budget)
    }

    /// Says whether all literals of `want` can be true together.
    ///
    /// Nodes without clauses get them first. What is wanted is assumed and is no clause, so the
    /// answer to one question leaves nothing behind that binds the next.
    ///
    /// # Errors
    ///
    /// `AllocError` where memory is refused; some nodes more may have their clauses, and the log
    /// may have gained conflict lines, within the budget.
    pub fn ask(&mut self, g: &Gates, want: &Lits, budget: Budget) -> Result<Verdict, AllocError>
        requires distinct { HasDistinctNodes want.now }
        requires exist { AllBelong g.now want.now }
        requires prefix { Grows self.old.nodes g.now }
        // What is answered.
        ensures yes { IfYes result (IsSolution g.now want.now) }
        ensures refuted { IfNo result (λ _. HasNoSolution g.now want.now) }
        // What is gained, whatever is answered.
        ensures gains { Gains self.new.variables budget
            (all_encoded want.now) self.old.log self.new.log (outcome result) }
        // How many variables there are.
        ensures variables { OnOk result
            (self.new.variables ≡ max self.old.variables (length g.now)) }
        ensures no_fewer { self.old.variables ≤ self.new.variables }
        ensures no_more { self.new.variables ≤ max self.old.variables (length g.now) }
        // Which nodes have their clauses, and that the clauses define them and say no more.
        ensures nodes { OnOk result (self.new.nodes ≡ g.now) }
        ensures grown { Grows self.old.nodes self.new.nodes }
        ensures prefix { Grows self.new.nodes g.now }
        ensures kept { HasDefinitions self.new }
        ensures definitional { IsDefinitional g.now (originals self.new.log) }
        ensures whole { OnOk result (IsWhole g.now (originals self.new.log)) }
    {
        self.define_all(g)?;
        let want = encode_all(self.alloc, want)?;
        let found = self.search(&want, budget)?;
        answer(self.alloc, g, found)
    }

    /// The clauses, and what was learned from them.
    pub fn log(&self) -> &Log
        ensures value { result.now ≡ self.now.log }
        ensures kept { HasDefinitions self.now }
        ensures definitional { IsDefinitional self.now.nodes (originals self.now.log) }
        ensures learned { AreLearned [] self.now.log }
        ensures fresh { AllFresh [] self.now.log }
    {
        self.solver.log()
    }

    /// How much is encoded, and how much was learned.
    pub fn counts(&self) -> Counts
        ensures frames { result.frames ≡ 0 }
        ensures gates { result.gates ≡ count_by is_conjunction self.now.nodes }
        ensures clauses { result.clauses ≡ length (originals self.now.log) }
        ensures lines { result.clauses + result.lines ≡ length self.now.log }
    {
        let log = self.solver.log();
        let clauses = log.count_originals();
        Counts {
            frames: 0,
            gates: count_gates(self.nodes.as_slice()),
            clauses,
            lines: log.count() - clauses,
        }
    }
}

/// How many of the nodes are conjunctions.
fn count_gates(nodes: &[Node]) -> u64
    ensures { result ≡ count_by is_conjunction nodes.now }
{
    nodes
        .iter()
        .filter(|node| match **node {
            Node::True => false,
            Node::Input => false,
            Node::And(_, _) => true,
        })
        .count() as u64
}

/// The solver's answer over variables, as one over nodes.
fn answer(alloc: Global, g: &Gates, found: Found) -> Result<Verdict, AllocError>
    requires { IsValued g.now found }
    ensures { Tells g.now found result }
{
    match found {
        Found::Yes(values) => {
            let bits = bits_of(alloc, g, &values)?;
            return Ok(Verdict::Yes(bits));
        }
        Found::No(id) => return Ok(Verdict::No(id)),
        Found::Spent(n) => return Ok(Verdict::Spent(n)),
    }
}
