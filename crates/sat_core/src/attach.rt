//! Clauses that came since the last question are attached: two of their literals are watched, or
//! the only one becomes true.

ghost use Rattle.std.specs.Prelude.{◌≡◌, ◌<◌, ◌≤◌, ◌+◌, ◌^◌, ℕ, true, false, List, Some, length, IfOk, OnOk, OnErr};
ghost use Rattle.std.specs.List.{AllByRecursion};
ghost use Rattle.sat_log.specs.Literal.{Literal};
ghost use Rattle.sat_log.specs.Clause.{HasDistinctVariables, IsFalsified};
ghost use Rattle.sat_log.specs.Accepted.{IsLog, clause_at};
ghost use Rattle.sat_log.specs.Learned.{IsTrueUnder};
ghost use Rattle.sat_log.specs.Checking.{IsUpTo, AreUpTo};
ghost use Rattle.sat_log.specs.declared.line.LogLine.{LogLine};
ghost use Rattle.sat_watch.specs.Watched.{HasPlace};
ghost use Rattle.sat_trail.specs.Trail.{literals, top};
ghost use Rattle.sat_trail.specs.Units.{IsTrail, AddsImplied};
ghost use Rattle.sat_propagation.specs.Watching.{Propagated, IsReady, IsWatchedFor};
ghost use Rattle.sat_core.specs.Attached.{WatchesTwo, LooksAgain, Attaches};
ghost use Rattle.sat_core.specs.Search.{AskedFirst};

use crate::search::Search;
use sat_log::{Log, SLit};
use sat_propagation::{Line, Propagation};
use sat_trail::Trail;
use std::alloc::AllocError;

/// Watches the first two of these literals, for no line yet, if there are two.
///
/// # Errors
///
/// `AllocError` where memory is refused; all stays as it was.
pub(crate) fn watch_two(
    propagation: &mut Propagation,
    literals: &[SLit],
) -> Result<Option<usize>, AllocError>
    requires distinct { HasDistinctVariables literals.now }
    requires places { AllByRecursion (HasPlace propagation.old.watched) literals.now }
    ensures ok { IfOk result (WatchesTwo propagation.old propagation.new literals.now) }
    ensures err { OnErr result (propagation.new ≡ propagation.old) }
{
    if literals.len() < 2 {
        return Ok(None);
    }
    let watcher = propagation.add(literals[0], literals[1])?;
    Ok(Some(watcher))
}

/// Has the whole trail looked at again, if one of two literals that are watched from now on is
/// false.
fn look_again(trail: &Trail, propagation: &mut Propagation, first: SLit, second: SLit)
    requires first { first.var ≤ trail.now.variables }
    requires second { second.var ≤ trail.now.variables }
    ensures { LooksAgain (literals trail.now.entries) propagation.old propagation.new first second }
{
    if trail.is_true(first.negated()) || trail.is_true(second.negated()) {
        propagation.look_from_start();
    }
}

/// Makes the literal of a clause that has one at most true, by the line of this id. Answers whether
/// it is: not where it is false, or there is none.
fn assert_unit(trail: &mut Trail, clause: &[SLit], id: u64) -> bool
    requires short { length clause.now < 2 }
    requires exist { IsUpTo trail.old.variables clause.now }
    ensures true_ { result ≡ true → IsTrueUnder (literals trail.new.entries) clause.now }
    ensures false_ { result ≡ false → IsFalsified (literals trail.new.entries) clause.now }
    ensures trail { (log : List LogLine) → clause_at log id ≡ Some clause.now →
        IsTrail log trail.old.entries → IsTrail log trail.new.entries }
    ensures ready { (log : List LogLine) (p : Propagated) → IsReady log trail.old p →
        IsReady log trail.new p }
    ensures implied { AddsImplied trail.old.entries trail.new.entries }
    ensures variables { trail.new.variables ≡ trail.old.variables }
{
    if clause.len() == 0 {
        return false;
    }
    let literal = clause[0];
    if trail.is_true(literal.negated()) {
        return false;
    }
    if trail.is_true(literal) {
        return true;
    }
    trail.imply(literal, id);
    true
}

/// Attaches the clause of this id at level 0. Answers whether it can be true.
///
/// # Errors
///
/// `AllocError` where memory is refused; what is watched stays so.
fn attach_clause(
    log: &Log,
    trail: &mut Trail,
    propagation: &mut Propagation,
    id: u64,
) -> Result<bool, AllocError>
    requires id { 1 ≤ id }
    requires log { IsLog log.now }
    requires trail { IsTrail log.now trail.old.entries }
    requires exist { AreUpTo trail.old.variables log.now }
    requires level { top trail.old.entries ≡ 0 }
    requires ready { IsReady log.now trail.old propagation.old }
    ensures ok { IfOk result (Attaches log.now trail.new.entries propagation.new id) }
    ensures watched { (i : ℕ) → IsWatchedFor propagation.old i → IsWatchedFor propagation.new i }
    ensures ready { IsReady log.now trail.new propagation.new }
    ensures trail { IsTrail log.now trail.new.entries }
    ensures implied { AddsImplied trail.old.entries trail.new.entries }
    ensures variables { trail.new.variables ≡ trail.old.variables }
{
    let clause = match log.clause(id) {
        Some(clause) => clause,
        None => return Ok(true),
    };
    match watch_two(propagation, clause)? {
        Some(watcher) => {
            look_again(trail, propagation, clause[0], clause[1]);
            let binary = clause.len() == 2;
            propagation.serve(watcher, Line { id, binary });
            Ok(true)
        }
        None => Ok(assert_unit(trail, clause, id)),
    }
}

impl Search {
    /// Attaches the clause of the next line.
    ///
    /// # Errors
    ///
    /// `AllocError` where memory is refused; what is attached stays so.
    fn attach_next(&mut self) -> Result<(), AllocError>
        requires log { IsLog self.old.log }
        requires level { top self.old.entries ≡ 0 }
        requires inside { self.old.attached < length self.old.log }
        requires small { length self.old.log < 2 ^ 63 }
        ensures ok { OnOk result (self.new.attached ≡ self.old.attached + 1) }
        ensures level { top self.new.entries ≡ 0 }
        ensures asked { (want : List Literal) → AskedFirst want self.old.entries →
            AskedFirst want self.new.entries }
        ensures log { self.new.log ≡ self.old.log }
        ensures variables { self.new.variables ≡ self.old.variables }
    {
        let id = self.attached + 1;
        let possible = attach_clause(&self.log, &mut self.trail, &mut self.propagation, id)?;
        self.attached = id;
        if possible {
            return Ok(());
        }
        self.false_clause = Some(id);
        Ok(())
    }

    /// Attaches the clauses that came since the last question.
    ///
    /// # Errors
    ///
    /// `AllocError` where memory is refused; what is attached stays so.
    pub(crate) fn attach(&mut self) -> Result<(), AllocError>
        requires level { top self.old.entries ≡ 0 }
        ensures ok { OnOk result (self.new.attached ≡ length self.new.log) }
        ensures asked { (want : List Literal) → AskedFirst want self.old.entries →
            AskedFirst want self.new.entries }
        ensures log { self.new.log ≡ self.old.log }
        ensures variables { self.new.variables ≡ self.old.variables }
    {
        while self.attached < self.log.count() {
            self.attach_next()?;
        }
        Ok(())
    }
}
