//! The search: propagation, decisions, and what is learned from conflicts (Eén and Sörensson 2003).

ghost use Rattle.std.specs.Prelude.{◌≡◌, ◌≢◌, ◌+◌, ◌<◌, ◌≤◌, ◌++◌, ◌∷◌, [], List, length, map, IfOk, IfSome, IfNone, OnOk, OnErr};
ghost use Rattle.std.specs.List.{AllByRecursion};
ghost use Rattle.sat_log.specs.Literal.{Literal};
ghost use Rattle.sat_log.specs.Clause.{HasDistinctVariables};
ghost use Rattle.sat_log.specs.Accepted.{IsLog};
ghost use Rattle.sat_log.specs.Clauses.{clauses};
ghost use Rattle.sat_log.specs.Checking.{IsUpTo, AreUpTo};
ghost use Rattle.sat_log.specs.Lines.{original, AreProper};
ghost use Rattle.sat_trail.specs.Assignment.{assignment, AreTrue};
ghost use Rattle.sat_core.specs.Assignment.{IsSolution, HasNoSolution};
ghost use Rattle.sat_core.specs.Gained.{gained, HasNoOriginal};
ghost use Rattle.sat_core.specs.Gains.{outcome, Gains};
ghost use Rattle.sat_core.specs.Verdicts.{IfYes, IfNo};
ghost use Rattle.sat_trail.specs.Trail.{literals, top};
ghost use Rattle.sat_trail.specs.Units.{IsConflict, AreQuiet};
ghost use Rattle.sat_core.specs.Search.{AreAmong, AskedFirst, StepsTo, MayStep, GoesOn};

use crate::decide::Decision;
use crate::laws::{final_line_refutes, learned_lines_are_few, learned_lines_are_fresh};
use crate::{Budget, SBits, Verdict};
use sat_analysis::Analysis;
use sat_log::{Log, SLit, SLits};
use sat_propagation::Propagation;
use sat_trail::Trail;
use std::alloc::{AllocError, Global};
use std::marker::Model;

/// What comes of one step of a search.
#[derive(Debug, Drop)]
enum Step {
    /// A clause was learned.
    Learned,
    /// A literal was decided.
    Decided,
    /// All that is wanted is true under these values.
    Yes(SBits),
    /// It can't be, by the final line of this id.
    No(u64),
}

/// The log, the trail, and what conflict analysis and propagation work in.
#[derive(Debug, Drop)]
pub(crate) struct Search {
    pub(crate) alloc: Global,
    pub(crate) log: Log,
    pub(crate) trail: Trail,
    pub(crate) analysis: Analysis,
    pub(crate) propagation: Propagation,
    /// The clauses of so many lines are attached: each is watched, or true at level 0.
    pub(crate) attached: u64,
    /// A clause that is false at level 0, by its id.
    pub(crate) false_clause: Option<u64>,
}

impl Model for Search {
    ghost use Rattle.sat_core.specs.Search.{Searched, KeepsSearch};
    ghost use Rattle.sat_core.specs.Attached.{KeepsAttached};

    ghost Value = { Searched };

    ghost view = { λ s. record {
      variables = s.trail.variables;
      log = s.log;
      entries = s.trail.entries;
      attached = s.attached;
      looked = s.propagation.looked;
    } };

    ghost invariant = { λ s. KeepsSearch s.log s.trail s.analysis.state ×
        KeepsAttached s.log s.trail s.propagation s.attached s.false_clause };
}

impl Search {
    /// A search without variables and clauses.
    ///
    /// # Errors
    ///
    /// `AllocError` where memory is refused.
    pub(crate) fn new(alloc: Global) -> Result<Search, AllocError>
        ensures { IfOk result (λ s. s ≡ record {
          variables = 0;
          log = [];
          entries = [];
          attached = 0;
          looked = 0;
        }) }
    {
        Ok(Search {
            alloc,
            log: Log::new(alloc)?,
            trail: Trail::new(alloc)?,
            analysis: Analysis::new(alloc)?,
            propagation: Propagation::new(alloc)?,
            attached: 0,
            false_clause: None,
        })
    }

    /// The log.
    pub(crate) fn log(&self) -> &Log
        ensures log { result.now ≡ self.now.log }
        ensures is_log { IsLog self.now.log }
    {
        // That it is one comes with the number of its lines.
        let _lines = self.log.count();
        &self.log
    }

    /// How many variables there are. No other stands in the log.
    pub(crate) fn variables(&self) -> u64
        ensures count { result ≡ self.now.variables }
        ensures exist { AreUpTo self.now.variables self.now.log }
    {
        self.trail.variables()
    }

    /// Adds a variable.
    ///
    /// # Errors
    ///
    /// `AllocError` where memory is refused; all stays as it was.
    pub(crate) fn add_variable(&mut self) -> Result<(), AllocError>
        ensures ok { OnOk result (self.new ≡ record {
          variables = self.old.variables + 1;
          log = self.old.log;
          entries = self.old.entries;
          attached = self.old.attached;
          looked = self.old.looked;
        }) }
        ensures err { OnErr result (self.new ≡ self.old) }
    {
        self.analysis.make_room(self.trail.variables() + 1)?;
        self.propagation.add_variable()?;
        self.trail.add_variable()
    }

    /// Adds a clause at level 0, and answers its id.
    ///
    /// # Errors
    ///
    /// `AllocError` where memory is refused; all stays as it was.
    pub(crate) fn add_clause(&mut self, lits: &SLits) -> Result<u64, AllocError>
        requires nonempty { lits.now ≢ [] }
        requires distinct { HasDistinctVariables lits.now }
        requires exist { IsUpTo self.old.variables lits.now }
        requires level { top self.old.entries ≡ 0 }
        ensures ok { OnOk result (self.new ≡ record {
          variables = self.old.variables;
          log = self.old.log ++ original lits.now ∷ [];
          entries = self.old.entries;
          attached = self.old.attached;
          looked = self.old.looked;
        }) }
        ensures id { IfOk result (λ id. id ≡ length self.new.log) }
        ensures err { OnErr result (self.new ≡ self.old) }
    {
        self.log.add_original(lits)
    }

    /// Adds clauses at level 0: all of them, or none.
    ///
    /// # Errors
    ///
    /// `AllocError` where memory is refused; all stays as it was.
    pub(crate) fn add_clauses(&mut self, clauses: &[SLits]) -> Result<(), AllocError>
        requires proper { AreProper clauses.now }
        requires exist { AllByRecursion (IsUpTo self.old.variables) clauses.now }
        requires level { top self.old.entries ≡ 0 }
        ensures ok { OnOk result (self.new ≡ record {
          variables = self.old.variables;
          log = self.old.log ++ map original clauses.now;
          entries = self.old.entries;
          attached = self.old.attached;
          looked = self.old.looked;
        }) }
        ensures err { OnErr result (self.new ≡ self.old) }
    {
        self.log.add_originals(clauses)
    }

    /// How many lines the log has.
    fn lines(&self) -> u64
        ensures count { result ≡ length self.now.log }
        ensures log { IsLog self.now.log }
        ensures exist { AreUpTo self.now.variables self.now.log }
    {
        self.log.count()
    }

    /// How many levels are open.
    fn level(&self) -> u64
        ensures { result ≡ top self.now.entries }
    {
        self.trail.level()
    }

    /// The value of each variable.
    ///
    /// # Errors
    ///
    /// `AllocError` where memory is refused.
    fn values(&self) -> Result<SBits, AllocError>
        ensures one_each { IfOk result (λ bits. length bits ≡ self.now.variables) }
        ensures true_ { IfOk result (λ bits. AreTrue (assignment bits)
            (literals self.now.entries)) }
    {
        Ok(SBits::new(self.trail.values(self.alloc)?))
    }

    /// Goes back to level 0.
    pub(crate) fn reset(&mut self)
        ensures level { top self.new.entries ≡ 0 }
        ensures asked { (want : List Literal) → AskedFirst want self.new.entries }
        ensures attached { self.new.attached ≡ self.old.attached }
        ensures log { self.new.log ≡ self.old.log }
        ensures variables { self.new.variables ≡ self.old.variables }
    {
        self.propagation.backjump(&mut self.trail, 0);
    }

    /// Makes true what unit clauses imply, where all clauses are attached. Answers the id of a
    /// clause that is false, if one is.
    fn propagate(&mut self) -> Option<u64>
        requires log { IsLog self.old.log }
        requires attached { self.old.attached ≡ length self.old.log }
        ensures conflict { IfSome result (IsConflict self.new.log (literals self.new.entries)) }
        ensures quiet { IfNone result (AreQuiet (literals self.new.entries)
            (clauses self.new.log)) }
        ensures asked { (want : List Literal) → AskedFirst want self.old.entries →
            AskedFirst want self.new.entries }
        ensures true_ { (c : List Literal) → AreAmong (literals self.old.entries) c →
            AreAmong (literals self.new.entries) c }
        ensures longer { length self.old.entries ≤ length self.new.entries }
        ensures all { IfNone result (length self.new.entries ≤ self.new.looked) }
        ensures attached { self.new.attached ≡ self.old.attached }
        ensures log { self.new.log ≡ self.old.log }
        ensures is_log { IsLog self.new.log }
        ensures exist { AreUpTo self.new.variables self.new.log }
        ensures variables { self.new.variables ≡ self.old.variables }
    {
        if self.false_clause.is_some() {
            return self.false_clause;
        }
        self.propagation.propagate(&self.log, &mut self.trail)
    }

    /// One step of a search: propagation, and then a clause that is learned, a decision, or an
    /// answer. So many of the wanted literals are known to be true.
    ///
    /// # Errors
    ///
    /// `AllocError` where memory is refused; the log stays as it was.
    fn step(&mut self, want: &[SLit], asked: &mut usize) -> Result<Step, AllocError>
        requires distinct { HasDistinctVariables want.now }
        requires exist { IsUpTo self.old.variables want.now }
        requires asked { AskedFirst want.now self.old.entries }
        requires log { IsLog self.old.log }
        requires may { MayStep want.now asked.old self.old }
        ensures step { IfOk result (StepsTo want.now self.old self.new) }
        ensures goes_on { IfOk result (GoesOn want.now asked.new self.new) }
        ensures err { OnErr result (self.new.log ≡ self.old.log) }
        ensures asked { AskedFirst want.now self.new.entries }
        ensures variables { self.new.variables ≡ self.old.variables }
    {
        match self.propagate() {
            Some(conflict) if self.level() == 0 => Ok(Step::No(self.refute(conflict)?)),
            Some(conflict) => {
                self.learn(conflict)?;
                *asked = 0;
                Ok(Step::Learned)
            }
            None => match self.decide(want, asked) {
                Decision::Made => Ok(Step::Decided),
                Decision::False(wanted) => Ok(Step::No(self.refute_wanted(wanted, want)?)),
                Decision::Complete => Ok(Step::Yes(self.values()?)),
            },
        }
    }

    /// Searches from level 0 until there is an answer.
    ///
    /// # Errors
    ///
    /// `AllocError` where memory is refused; what was learned stays.
    pub(crate) fn run(&mut self, want: &[SLit], budget: Budget) -> Result<Verdict, AllocError>
        requires distinct { HasDistinctVariables want.now }
        requires exist { IsUpTo self.old.variables want.now }
        ensures yes { IfYes result (IsSolution self.new.variables self.new.log want.now) }
        ensures refuted { IfNo result (λ _. HasNoSolution self.new.log want.now) }
        ensures gains { Gains self.new.variables budget want.now self.old.log self.new.log
            (outcome result) }
        ensures no_original { HasNoOriginal (gained self.old.log self.new.log) }
        ensures variables { self.new.variables ≡ self.old.variables }
    {
        // By these laws the loop ends, what it learns is fresh, and a final line refutes what is
        // wanted.
        learned_lines_are_few();
        learned_lines_are_fresh();
        final_line_refutes();
        self.reset();
        let start = self.lines();
        self.attach()?;
        let mut learned = 0;
        let mut asked = 0;
        while budget.allows(learned) {
            let step = self.step(want, &mut asked);
            let lines = self.lines();
            match step? {
                Step::Learned | Step::Decided => {}
                Step::Yes(bits) => return Ok(Verdict::Yes(bits)),
                Step::No(id) => return Ok(Verdict::No(id)),
            }
            learned = lines - start;
        }
        Ok(Verdict::Spent(learned))
    }
}
