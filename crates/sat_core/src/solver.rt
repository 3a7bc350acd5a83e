ghost use Rattle.std.specs.Prelude.{◌≡◌, ◌≢◌, ◌+◌, ◌++◌, ◌∷◌, [], length, map, IfOk, OnOk, OnErr};
ghost use Rattle.std.specs.List.{AllByRecursion};
ghost use Rattle.sat_log.specs.Clause.{HasDistinctVariables};
ghost use Rattle.sat_log.specs.Accepted.{IsLog};
ghost use Rattle.sat_log.specs.Checking.{IsUpTo, AreUpTo};
ghost use Rattle.sat_log.specs.Lines.{original, AreProper};
ghost use Rattle.sat_log.specs.Learned.{AllFresh};
ghost use Rattle.sat_core.specs.Assignment.{IsSolution, HasNoSolution};
ghost use Rattle.sat_core.specs.Gained.{gained, HasNoOriginal, AreLearned};
ghost use Rattle.sat_core.specs.Gains.{outcome, Gains};
ghost use Rattle.sat_core.specs.Verdicts.{IfYes, IfNo};

use crate::laws::learned_lines_are_fresh;
use crate::search::Search;
use crate::{Budget, Verdict};
use sat_log::{Log, SLits};
use std::alloc::{AllocError, Global};
use std::marker::Model;

/// A solver that is kept from one question to the next (Eén and Sörensson 2003). It learns a clause
/// from each conflict (Marques-Silva and Sakallah 1996), and appends it to its log.
#[derive(Debug, Drop)]
pub struct Solver {
    search: Search,
}

impl Model for Solver {
    ghost use Rattle.sat_core.specs.Contents.{Contents};
    ghost use Rattle.sat_core.specs.Search.{IsAtRest};

    ghost Value = { Contents };

    ghost view = { λ s. record { variables = s.search.variables; log = s.search.log } };

    ghost invariant = { λ s. IsAtRest s.search };
}

impl Solver {
    /// A solver without variables and clauses.
    ///
    /// # Errors
    ///
    /// `AllocError` where memory is refused.
    pub fn new(alloc: Global) -> Result<Solver, AllocError>
        ensures { IfOk result (λ s. s ≡ record { variables = 0; log = [] }) }
    {
        Ok(Solver {
            search: Search::new(alloc)?,
        })
    }

    /// Adds a variable, and answers it. The variables are 1, 2 and so on.
    ///
    /// # Errors
    ///
    /// `AllocError` where memory is refused; the solver stays as it was.
    pub fn new_var(&mut self) -> Result<u64, AllocError>
        ensures ok { OnOk result (self.new ≡ record {
          variables = self.old.variables + 1;
          log = self.old.log;
        }) }
        ensures var { IfOk result (λ var. var ≡ self.new.variables) }
        ensures err { OnErr result (self.new ≡ self.old) }
    {
        self.search.add_variable()?;
        Ok(self.search.variables())
    }

    /// Adds a clause, and answers the id of its line in the log.
    ///
    /// # Errors
    ///
    /// `AllocError` where memory is refused; the solver stays as it was.
    pub fn add_clause(&mut self, lits: &SLits) -> Result<u64, AllocError>
        requires nonempty { lits.now ≢ [] }
        requires distinct { HasDistinctVariables lits.now }
        requires exist { IsUpTo self.old.variables lits.now }
        ensures ok { OnOk result (self.new ≡ record {
          variables = self.old.variables;
          log = self.old.log ++ original lits.now ∷ [];
        }) }
        ensures id { IfOk result (λ id. id ≡ length self.new.log) }
        ensures err { OnErr result (self.new ≡ self.old) }
    {
        self.search.add_clause(lits)
    }

    /// Adds clauses in their order: all of them, or none.
    ///
    /// # Errors
    ///
    /// `AllocError` where memory is refused; the solver stays as it was.
    pub fn add_clauses(&mut self, clauses: &[SLits]) -> Result<(), AllocError>
        requires proper { AreProper clauses.now }
        requires exist { AllByRecursion (IsUpTo self.old.variables) clauses.now }
        ensures ok { OnOk result (self.new ≡ record {
          variables = self.old.variables;
          log = self.old.log ++ map original clauses.now;
        }) }
        ensures err { OnErr result (self.new ≡ self.old) }
    {
        self.search.add_clauses(clauses)
    }

    /// How many variables there are. No other stands in the log.
    pub fn variables(&self) -> u64
        ensures count { result ≡ self.now.variables }
        ensures within { AreUpTo self.now.variables self.now.log }
    {
        self.search.variables()
    }

    /// The clauses, and what was learned from them.
    pub fn log(&self) -> &Log
        ensures value { result.now ≡ self.now.log }
        ensures is_log { IsLog self.now.log }
        // Each conflict line is needed and drawn over the lines before it, and so fresh.
        ensures learned { AreLearned [] self.now.log }
        ensures fresh { AllFresh [] self.now.log }
    {
        learned_lines_are_fresh();
        self.search.log()
    }

    /// Says whether the clauses and all literals of `want` can be true together.
    ///
    /// # Errors
    ///
    /// `AllocError` where memory is refused; the log may have gained conflict lines, within the
    /// budget.
    pub fn solve(&mut self, want: &SLits, budget: Budget) -> Result<Verdict, AllocError>
        requires distinct { HasDistinctVariables want.now }
        requires exist { IsUpTo self.old.variables want.now }
        // What is answered.
        ensures yes { IfYes result (IsSolution self.new.variables self.new.log want.now) }
        ensures refuted { IfNo result (λ _. HasNoSolution self.new.log want.now) }
        // What is gained, whatever is answered.
        ensures gains { Gains self.new.variables budget want.now self.old.log self.new.log
            (outcome result) }
        ensures no_original { HasNoOriginal (gained self.old.log self.new.log) }
        ensures variables { self.new.variables ≡ self.old.variables }
    {
        let verdict = self.search.run(want.as_slice(), budget);
        self.search.reset();
        verdict
    }
}
