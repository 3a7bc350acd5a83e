//! Conflict analysis: the walk from a false clause back along the trail.

ghost use Rattle.std.specs.Prelude.{◌≡◌, ◌≢◌, ◌⊎◌, ◌+◌, ◌<◌, ◌≤◌, [], None, Some, List, length, IfSome, IfNone};
ghost use Rattle.std.specs.List.{AllByRecursion};
ghost use Rattle.sat_log.specs.Literal.{Literal, negated};
ghost use Rattle.sat_log.specs.Clause.{Among};
ghost use Rattle.sat_log.specs.Accepted.{IsLog};
ghost use Rattle.sat_log.specs.Clauses.{clauses};
ghost use Rattle.sat_log.specs.Checking.{AreUpTo};
ghost use Rattle.sat_trail.specs.Trail.{literals, top, before, bottom};
ghost use Rattle.sat_trail.specs.Units.{IsTrail, IsReason, IsConflict, AreQuiet, AreDecided};
ghost use Rattle.sat_analysis.specs.Analysis.{IsUnmarked, marked_at, marked_count, AreAwaited, Awaits, IsAnalysis, IsAsserting, AreNegationsOf};

use crate::analysis::Analysis;
use sat_log::{Log, SLit};
use sat_trail::{Entry, Trail};

/// The clause by which a marked entry is resolved away, if it is not kept: one that is of level 0,
/// or of the level of the conflict while `left` others of it are marked.
fn resolvent(entry: &Entry, level: u64, left: usize) -> Option<u64>
    requires { 1 ≤ level }
    ensures reason { IfSome result (λ id. entry.now.reason ≡ Some id) }
    ensures others { IfSome result (λ _. entry.now.level ≡ level → left ≢ 0) }
    ensures kept { IfNone result ((entry.now.reason ≡ None) ⊎ ((entry.now.level ≢ 0) ×
        (entry.now.level ≡ level → left ≡ 0))) }
{
    if entry.level == 0 || entry.level == level && left > 0 {
        entry.reason
    } else {
        None
    }
}

impl Analysis {
    /// Looks at the entry before which `i` others were made, while `pending` entries of the level
    /// are marked. Answers how many are then.
    fn visit(&mut self, log: &Log, trail: &Trail, i: usize, level: u64, pending: usize) -> usize
        requires log { IsLog log.now }
        requires trail { IsTrail log.now trail.now.entries }
        requires exist { AreUpTo trail.now.variables log.now }
        requires size { trail.now.variables < length self.old.state.seen }
        requires inside { i < length trail.now.entries }
        requires latest { top trail.now.entries ≡ level }
        requires above { 1 ≤ level }
        requires state { IsAnalysis log.now (bottom (i + 1) trail.now.entries) self.old.state }
        requires awaited { AreAwaited self.old.positions self.old.state.seen
            (bottom i trail.now.entries) }
        requires few { length self.old.positions < marked_count self.old.state.seen }
        requires counted { pending ≡ marked_at level self.old.state.seen
            (bottom (i + 1) trail.now.entries) }
        requires asserting { IsAsserting level trail.now.entries pending self.old.state.lits }
        ensures state { IsAnalysis log.now (bottom i trail.now.entries) self.new.state }
        ensures awaited { Awaits self.new (bottom i trail.now.entries) }
        ensures counted { result ≡
            marked_at level self.new.state.seen (bottom i trail.now.entries) }
        ensures asserting { IsAsserting level trail.now.entries result self.new.state.lits }
        ensures size { length self.new.state.seen ≡ length self.old.state.seen }
    {
        let entry = trail.entry(i);
        if !self.unmark(entry.literal.var()) {
            return pending;
        }
        let left = if entry.level == level {
            pending - 1
        } else {
            pending
        };
        match resolvent(&entry, level, left) {
            Some(reason) => left + self.resolve(log, trail, reason, level),
            None => {
                self.keep(entry.literal.negated());
                left
            }
        }
    }

    /// The clause of the first unique implication point of a conflict (Marques-Silva and Sakallah
    /// 1996), with its hints. The literal that it asserts comes first, and then one of the latest
    /// level among the others.
    pub fn analyze(&mut self, log: &Log, trail: &Trail, conflict: u64)
        requires log { IsLog log.now }
        requires trail { IsTrail log.now trail.now.entries }
        requires exist { AreUpTo trail.now.variables log.now }
        requires size { trail.now.variables < length self.old.state.seen }
        requires clear { IsUnmarked self.old.state.seen }
        requires conflict { IsConflict log.now (literals trail.now.entries) conflict }
        requires above { 1 ≤ top trail.now.entries }
        requires quiet { AreQuiet (literals (before (top trail.now.entries) trail.now.entries))
            (clauses log.now) }
        ensures state { IsAnalysis log.now [] self.new.state }
        ensures asserting { IsAsserting (top trail.now.entries) trail.now.entries 0
            self.new.state.lits }
        ensures size { length self.new.state.seen ≡ length self.old.state.seen }
    {
        self.clear();
        let level = trail.level();
        let mut pending = self.resolve(log, trail, conflict, level);
        let mut limit = trail.len();
        while let Some(i) = self.next(limit) {
            pending = self.visit(log, trail, i, level, pending);
            limit = i;
        }
    }

    /// Looks at the entry before which `i` others were made: a marked decision is kept, and all
    /// else that is marked is resolved away.
    fn trace(&mut self, log: &Log, trail: &Trail, i: usize)
        requires log { IsLog log.now }
        requires trail { IsTrail log.now trail.now.entries }
        requires exist { AreUpTo trail.now.variables log.now }
        requires size { trail.now.variables < length self.old.state.seen }
        requires inside { i < length trail.now.entries }
        requires state { IsAnalysis log.now (bottom (i + 1) trail.now.entries) self.old.state }
        requires awaited { AreAwaited self.old.positions self.old.state.seen
            (bottom i trail.now.entries) }
        requires few { length self.old.positions < marked_count self.old.state.seen }
        ensures state { IsAnalysis log.now (bottom i trail.now.entries) self.new.state }
        ensures awaited { Awaits self.new (bottom i trail.now.entries) }
        ensures kept { (want : List Literal) → AreDecided want trail.now.entries →
            AreNegationsOf want self.old.state.lits → AreNegationsOf want self.new.state.lits }
        ensures size { length self.new.state.seen ≡ length self.old.state.seen }
    {
        let entry = trail.entry(i);
        if !self.unmark(entry.literal.var()) {
            return;
        }
        match entry.reason {
            Some(reason) => {
                let _marked = self.resolve(log, trail, reason, 0);
            }
            None => self.keep(entry.literal.negated()),
        }
    }

    /// Looks at all marked entries before which fewer than `start` others were made.
    fn trace_below(&mut self, log: &Log, trail: &Trail, start: usize)
        requires log { IsLog log.now }
        requires trail { IsTrail log.now trail.now.entries }
        requires exist { AreUpTo trail.now.variables log.now }
        requires size { trail.now.variables < length self.old.state.seen }
        requires inside { start ≤ length trail.now.entries }
        requires state { IsAnalysis log.now (bottom start trail.now.entries) self.old.state }
        requires awaited { Awaits self.old (bottom start trail.now.entries) }
        ensures state { IsAnalysis log.now [] self.new.state }
        ensures kept { (want : List Literal) → AreDecided want trail.now.entries →
            AreNegationsOf want self.old.state.lits → AreNegationsOf want self.new.state.lits }
        ensures size { length self.new.state.seen ≡ length self.old.state.seen }
    {
        let mut limit = start;
        while let Some(i) = self.next(limit) {
            self.trace(log, trail, i);
            limit = i;
        }
    }

    /// The clause over negations of decisions that a conflict leads to, with its hints: at level 0
    /// it has no literal.
    pub fn refute(&mut self, log: &Log, trail: &Trail, conflict: u64)
        requires log { IsLog log.now }
        requires trail { IsTrail log.now trail.now.entries }
        requires exist { AreUpTo trail.now.variables log.now }
        requires size { trail.now.variables < length self.old.state.seen }
        requires clear { IsUnmarked self.old.state.seen }
        requires conflict { IsConflict log.now (literals trail.now.entries) conflict }
        ensures state { IsAnalysis log.now [] self.new.state }
        ensures kept { (want : List Literal) → AreDecided want trail.now.entries →
            AreNegationsOf want self.new.state.lits }
        ensures size { length self.new.state.seen ≡ length self.old.state.seen }
    {
        self.clear();
        let _marked = self.resolve(log, trail, conflict, 0);
        self.trace_below(log, trail, trail.len());
    }

    /// The same for a literal that is true, by the clause that implied it: the literal is kept too.
    /// Before its entry `position` others were made.
    fn refute_from(&mut self, log: &Log, trail: &Trail, literal: SLit, reason: u64, position: usize)
        requires log { IsLog log.now }
        requires trail { IsTrail log.now trail.now.entries }
        requires exist { AreUpTo trail.now.variables log.now }
        requires size { trail.now.variables < length self.old.state.seen }
        requires clear { IsUnmarked self.old.state.seen }
        requires inside { position < length trail.now.entries }
        requires room { position < trail.now.variables }
        requires implied { IsReason log.now
            (literals (bottom position trail.now.entries)) reason literal }
        requires true_ { Among (literals trail.now.entries) literal }
        requires apart { AllByRecursion (λ e. e.literal.var ≢ literal.var)
            (bottom position trail.now.entries) }
        ensures state { IsAnalysis log.now [] self.new.state }
        ensures kept { (want : List Literal) → AreDecided want trail.now.entries →
            Among want (negated literal) → AreNegationsOf want self.new.state.lits }
        ensures size { length self.new.state.seen ≡ length self.old.state.seen }
    {
        self.clear();
        self.keep(literal);
        let _marked = self.resolve(log, trail, reason, 0);
        self.trace_below(log, trail, position);
    }

    /// The clause over negations of wanted literals, of which this one is false, with its hints.
    pub fn refute_wanted(&mut self, log: &Log, trail: &Trail, wanted: SLit)
        requires log { IsLog log.now }
        requires trail { IsTrail log.now trail.now.entries }
        requires exist { AreUpTo trail.now.variables log.now }
        requires size { trail.now.variables < length self.old.state.seen }
        requires clear { IsUnmarked self.old.state.seen }
        requires exists { wanted.var ≤ trail.now.variables }
        requires false_ { Among (literals trail.now.entries) (negated wanted) }
        requires implied { AllByRecursion (λ e. e.reason ≡ None →
            e.literal ≢ negated wanted) trail.now.entries }
        ensures state { IsAnalysis log.now [] self.new.state }
        ensures kept { (want : List Literal) → AreDecided want trail.now.entries →
            Among want wanted → AreNegationsOf want self.new.state.lits }
        ensures size { length self.new.state.seen ≡ length self.old.state.seen }
    {
        let position = trail.position(wanted.var());
        let entry = trail.entry(position);
        match entry.reason {
            Some(reason) => self.refute_from(log, trail, entry.literal, reason, position),
            None => {}
        }
    }
}
