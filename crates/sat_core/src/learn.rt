//! Lines of the log: clauses learned from conflicts, and final ones.

ghost use Rattle.std.specs.Prelude.{◌≡◌, ◌≢◌, ◌<◌, ◌≤◌, ◌++◌, ◌∷◌, [], List, length, IfOk, IfSome, OnOk, OnErr};
ghost use Rattle.sat_log.specs.Literal.{Literal, negated};
ghost use Rattle.sat_log.specs.Clause.{Among, HasDistinctVariables};
ghost use Rattle.sat_log.specs.Accepted.{IsLog, Accepts};
ghost use Rattle.sat_log.specs.Checking.{IsUpTo};
ghost use Rattle.sat_log.specs.declared.line.LogLine.{LogLine};
ghost use Rattle.sat_trail.specs.Trail.{literals, top};
ghost use Rattle.sat_trail.specs.Units.{IsConflict};
ghost use Rattle.sat_analysis.specs.Analysis.{IsAnalysis};
ghost use Rattle.sat_core.specs.Attached.{ServesIf};
ghost use Rattle.sat_core.specs.Search.{AskedFirst, AddsLearned, AddsFinal, HasAsserted};

use crate::attach::watch_two;
use crate::search::Search;
use sat_analysis::Analysis;
use sat_log::{AppendFault, LineKind, Log, LogLine, SLit};
use sat_propagation::{Line, Propagation};
use std::alloc::{AllocError, Global};

/// Appends a line that the log accepts.
///
/// # Errors
///
/// `AllocError` where memory is refused; the log stays as it was.
fn append(log: &mut Log, line: LogLine) -> Result<u64, AllocError>
    requires kind { line.kind ≢ LineKind.Original }
    requires accepted { Accepts log.old line }
    ensures ok { OnOk result (log.new ≡ log.old ++ line ∷ []) }
    ensures id { IfOk result (λ id. id ≡ length log.new) }
    ensures err { OnErr result (log.new ≡ log.old) }
{
    match log.append(line) {
        Ok(id) => Ok(id),
        Err(AppendFault::NoMemory(error)) => Err(error),
        Err(AppendFault::NotAccepted) => unreachable!(),
    }
}

/// Appends the clause of an analysis as a final line, and answers its id.
///
/// # Errors
///
/// `AllocError` where memory is refused; the log stays as it was.
fn append_final(alloc: Global, log: &mut Log, analysis: &Analysis) -> Result<u64, AllocError>
    requires { IsAnalysis log.old [] analysis.now.state }
    ensures ok { OnOk result (log.new ≡ log.old ++ record {
      kind = LineKind.Final;
      lits = analysis.now.state.lits;
      hints = analysis.now.state.hints;
    } ∷ []) }
    ensures id { IfOk result (λ id. id ≡ length log.new) }
    ensures err { OnErr result (log.new ≡ log.old) }
{
    let line = analysis.line(alloc, LineKind::Final)?;
    append(log, line)
}

/// Makes two literals that are watched, if they are, stand for this line.
fn serve(propagation: &mut Propagation, watcher: Option<usize>, line: Line)
    requires { IfSome watcher (λ w. w < length propagation.old.watched.pairs) }
    ensures { ServesIf propagation.old propagation.new watcher line }
{
    if let Some(watcher) = watcher {
        propagation.serve(watcher, line);
    }
}

impl Search {
    /// Learns the clause of a conflict above level 0, jumps back to the latest level among its
    /// literals but the one that it asserts, and makes that one true.
    ///
    /// # Errors
    ///
    /// `AllocError` where memory is refused; the log stays as it was. Two literals may be watched
    /// for no line then, and stay so.
    pub(crate) fn learn(&mut self, conflict: u64) -> Result<(), AllocError>
        requires log { IsLog self.old.log }
        requires conflict { IsConflict self.old.log (literals self.old.entries) conflict }
        requires above { 1 ≤ top self.old.entries }
        requires attached { self.old.attached ≡ length self.old.log }
        ensures ok { OnOk result (AddsLearned self.old.log self.new.log) }
        ensures err { OnErr result (self.new.log ≡ self.old.log) }
        // After the jump all literals but the first are false, and the clause implies the first.
        // That the jump is no shorter, and misses no unit, is in the invariant.
        ensures jump { (line : LogLine) → self.new.log ≡ self.old.log ++ line ∷ [] →
            HasAsserted self.new.entries line.lits (length self.new.log) }
        ensures attached { OnOk result (self.new.attached ≡ length self.new.log) }
        ensures asked { (want : List Literal) → AskedFirst want self.old.entries →
            AskedFirst want self.new.entries }
        ensures variables { self.new.variables ≡ self.old.variables }
    {
        self.analysis.analyze(&self.log, &self.trail, conflict);
        let line = self.analysis.line(self.alloc, LineKind::Conflict)?;
        let level = self.analysis.jump_level(&self.trail);
        let asserted = line.lits.as_slice()[0];
        let binary = line.lits.len() == 2;
        let watcher = watch_two(&mut self.propagation, line.lits.as_slice())?;
        let id = append(&mut self.log, line)?;
        self.trail.prefer(self.analysis.met());
        self.propagation.backjump(&mut self.trail, level);
        self.trail.imply(asserted, id);
        serve(&mut self.propagation, watcher, Line { id, binary });
        self.attached = id;
        Ok(())
    }

    /// Appends the final line of a conflict at level 0, and answers its id.
    ///
    /// # Errors
    ///
    /// `AllocError` where memory is refused; all stays as it was.
    pub(crate) fn refute(&mut self, conflict: u64) -> Result<u64, AllocError>
        requires log { IsLog self.old.log }
        requires conflict { IsConflict self.old.log (literals self.old.entries) conflict }
        requires level { top self.old.entries ≡ 0 }
        ensures ok { (want : List Literal) →
            OnOk result (AddsFinal want self.old.log self.new.log) }
        ensures id { IfOk result (λ id. id ≡ length self.new.log) }
        ensures err { OnErr result (self.new.log ≡ self.old.log) }
        ensures entries { self.new.entries ≡ self.old.entries }
        ensures variables { self.new.variables ≡ self.old.variables }
    {
        self.analysis.refute(&self.log, &self.trail, conflict);
        append_final(self.alloc, &mut self.log, &self.analysis)
    }

    /// Appends the final line for a wanted literal that is false, and answers its id.
    ///
    /// # Errors
    ///
    /// `AllocError` where memory is refused; all stays as it was.
    pub(crate) fn refute_wanted(&mut self, wanted: SLit, want: &[SLit]) -> Result<u64, AllocError>
        requires log { IsLog self.old.log }
        requires distinct { HasDistinctVariables want.now }
        requires exist { IsUpTo self.old.variables want.now }
        requires wanted { Among want.now wanted }
        requires false_ { Among (literals self.old.entries) (negated wanted) }
        requires asked { AskedFirst want.now self.old.entries }
        ensures ok { OnOk result (AddsFinal want.now self.old.log self.new.log) }
        ensures id { IfOk result (λ id. id ≡ length self.new.log) }
        ensures err { OnErr result (self.new.log ≡ self.old.log) }
        ensures entries { self.new.entries ≡ self.old.entries }
        ensures variables { self.new.variables ≡ self.old.variables }
    {
        self.analysis.refute_wanted(&self.log, &self.trail, wanted);
        append_final(self.alloc, &mut self.log, &self.analysis)
    }
}
