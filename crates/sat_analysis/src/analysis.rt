//! The marks, the literals and the hints of conflict analysis.

ghost use Rattle.std.specs.Prelude.{◌≡◌, ◌⊎◌, ◌+◌, ◌<◌, ◌≤◌, ◌∷◌, ◌++◌, ℕ, List, Bool, true, false, [], length, Some, slice_set, IfOk, IfSome, IfNone, OnOk, OnErr};
ghost use Rattle.std.specs.BinaryHeap.{heap_items, heap_len, heap_capacity, KeepsHeap};
ghost use Rattle.std.specs.List.{Contains};
ghost use Rattle.std.specs.Ordering.{nat_cmp};
ghost use Rattle.sat_log.specs.Literal.{Literal, negated};
ghost use Rattle.sat_log.specs.Clause.{HasDistinctVariables};
ghost use Rattle.sat_log.specs.Accepted.{clause_at};
ghost use Rattle.sat_log.specs.Checking.{IsUpTo, AreUpTo};
ghost use Rattle.sat_trail.specs.Trail.{literals, bottom};
ghost use Rattle.sat_trail.specs.declared.trail.Entry.{Entry};
ghost use Rattle.sat_analysis.specs.Analysis.{IsJump, is_marked, IsUnmarked, marked_at, marked_count, MarksOthers, AreFalseIn, AreAwaited, Awaits};

use sat_log::{Ids, LineKind, Log, LogLine, SLit, SLits};
use sat_trail::Trail;
use std::alloc::{AllocError, Global};
use std::collections::BinaryHeap;
use std::marker::Model;

/// What conflict analysis works in: it is kept from one conflict to the next, with room for every
/// variable.
#[derive(Debug, Drop)]
pub struct Analysis {
    /// By variables.
    seen: Vec<bool>,
    /// The positions in the trail of what is marked, and perhaps of what was.
    positions: BinaryHeap<usize>,
    lits: Vec<SLit>,
    /// The last one first.
    hints: Vec<u64>,
    /// The variables whose marks were taken away. Only the order of decisions depends on them.
    met: Vec<u64>,
}

impl Model for Analysis {
    ghost use Rattle.std.specs.Prelude.{◌≤◌, length, reverse, vec_capacity};
    ghost use Rattle.std.specs.BinaryHeap.{IsHeap, heap_items, heap_capacity};
    ghost use Rattle.std.specs.Ordering.{nat_cmp};
    ghost use Rattle.sat_analysis.specs.Analysis.{Walk};

    ghost Value = { Walk };

    ghost view = { λ a. record {
      state = record {
        seen = a.seen.items;
        lits = a.lits.items;
        hints = reverse a.hints.items;
      };
      positions = heap_items a.positions;
    } };

    ghost invariant = { λ a. IsHeap nat_cmp (heap_items a.positions) ×
        (length a.seen.items ≤ heap_capacity a.positions) ×
        (length a.seen.items ≤ vec_capacity a.lits) ×
        (length a.seen.items ≤ vec_capacity a.hints) };
}

/// Marks the variables of the clause's literals that are not true, and adds the positions of those
/// that were not marked before. Answers how many of these have this level.
fn mark_others(
    seen: &mut [bool],
    positions: &mut BinaryHeap<usize>,
    trail: &Trail,
    clause: &[SLit],
    level: u64,
) -> usize
    requires distinct { HasDistinctVariables (literals trail.now.entries) }
    requires exist { IsUpTo trail.now.variables clause.now }
    requires size { trail.now.variables < length seen.old }
    requires room { length seen.old ≤ heap_capacity positions.old }
    requires few { heap_len positions.old ≤ marked_count seen.old }
    ensures marks { MarksOthers (literals trail.now.entries) clause.now seen.old seen.new }
    ensures count { (i : ℕ) →
        AreFalseIn (literals trail.now.entries) clause.now (literals (bottom i trail.now.entries)) →
        marked_at level seen.new (bottom i trail.now.entries) ≡
        marked_at level seen.old (bottom i trail.now.entries) + result }
    ensures awaited { (i : ℕ) →
        AreAwaited (heap_items positions.old) seen.old (bottom i trail.now.entries) →
        AreAwaited (heap_items positions.new) seen.new (bottom i trail.now.entries) }
    ensures few { heap_len positions.new ≤ marked_count seen.new }
    ensures heap { KeepsHeap nat_cmp (heap_items positions.old) (heap_items positions.new) }
    ensures room { heap_capacity positions.old ≤ heap_capacity positions.new }
{
    let mut found = 0;
    for &literal in clause {
        let var = literal.var();
        if trail.is_true(literal) || seen[var as usize] {
            continue;
        }
        seen[var as usize] = true;
        // There is room: a position was added for no more than each variable that is marked.
        let _added = positions.push(trail.position(var));
        if trail.level_of(var) == level {
            found += 1;
        }
    }
    found
}

impl Analysis {
    /// Nothing marked, and no variables.
    pub fn new(alloc: Global) -> Result<Analysis, AllocError>
        ensures { IfOk result (λ a. a.state ≡
            record { seen = false ∷ []; lits = []; hints = [] }) }
    {
        Ok(Analysis {
            seen: vec![in alloc; false]?,
            positions: BinaryHeap::with_capacity(alloc, 1)?,
            lits: Vec::with_capacity(alloc, 1)?,
            hints: Vec::with_capacity(alloc, 1)?,
            met: Vec::new(alloc),
        })
    }

    /// Makes room for a variable, where there is room for the one before it.
    ///
    /// # Errors
    ///
    /// `AllocError` where memory is refused; what is marked stays as it was.
    pub fn make_room(&mut self, var: u64) -> Result<(), AllocError>
        requires { var ≤ length self.old.state.seen }
        ensures ok { OnOk result (var < length self.new.state.seen) }
        ensures longer { length self.old.state.seen ≤ length self.new.state.seen }
        ensures clear { IsUnmarked self.old.state.seen → IsUnmarked self.new.state.seen }
    {
        if (var as usize) < self.seen.len() {
            return Ok(());
        }
        self.clear();
        self.seen.reserve(1)?;
        self.positions.reserve(self.seen.len() + 1)?;
        self.lits.reserve(self.seen.len() + 1)?;
        self.hints.reserve(self.seen.len() + 1)?;
        self.seen.push_reserved(false);
        Ok(())
    }

    /// Forgets the positions, the literals and the hints.
    pub(crate) fn clear(&mut self)
        ensures state { self.new.state ≡
            record { seen = self.old.state.seen; lits = []; hints = [] } }
        ensures positions { self.new.positions ≡ [] }
    {
        self.positions.clear();
        self.lits.clear();
        self.hints.clear();
        self.met.clear();
    }

    /// The variables that had a part in what was looked at last. They are advice: no contract rests
    /// on them.
    pub fn met(&self) -> &[u64] {
        self.met.as_slice()
    }

    /// Takes positions out, the latest first, until one is below the limit.
    pub(crate) fn next(&mut self, limit: usize) -> Option<usize>
        ensures below { IfSome result (λ i. i < limit) }
        ensures others { IfSome result (λ i. (q : ℕ) → q < limit → Contains self.old.positions q →
            (q ≡ i) ⊎ ((q < i) × Contains self.new.positions q)) }
        ensures fewer { IfSome result
            (λ _. length self.new.positions < length self.old.positions) }
        ensures none { IfNone result ((q : ℕ) → q < limit → ¬ Contains self.old.positions q) }
        ensures state { self.new.state ≡ self.old.state }
    {
        while let Some(position) = self.positions.pop() {
            if position < limit {
                return Some(position);
            }
        }
        None
    }

    /// Takes away the mark of a variable, and answers whether there was one.
    pub(crate) fn unmark(&mut self, var: u64) -> bool
        requires { var < length self.old.state.seen }
        ensures mark { result ≡ is_marked self.old.state.seen var }
        ensures new { self.new.state ≡ record {
          seen = slice_set self.old.state.seen var false;
          lits = self.old.state.lits;
          hints = self.old.state.hints;
        } }
        ensures awaited { (rest : List Entry) →
            AreAwaited self.old.positions self.old.state.seen rest →
            length self.old.positions < marked_count self.old.state.seen → Awaits self.new rest }
    {
        let marked = self.seen[var as usize];
        self.seen[var as usize] = false;
        if marked {
            // Where memory is refused, the variable has no part.
            let _kept = self.met.push(var);
        }
        marked
    }

    /// Adds a literal to the clause.
    pub(crate) fn keep(&mut self, literal: SLit)
        requires { length self.old.state.lits < length self.old.state.seen }
        ensures state { self.new.state ≡ record {
          seen = self.old.state.seen;
          lits = self.old.state.lits ++ literal ∷ [];
          hints = self.old.state.hints;
        } }
        ensures awaited { (rest : List Entry) → Awaits self.old rest → Awaits self.new rest }
    {
        self.lits.push_reserved(literal);
    }

    /// Adds a hint in front of the others, and marks the variables of its literals that are not
    /// true. Answers how many that were not marked before have this level.
    pub(crate) fn resolve(&mut self, log: &Log, trail: &Trail, id: u64, level: u64) -> usize
        requires distinct { HasDistinctVariables (literals trail.now.entries) }
        requires exist { AreUpTo trail.now.variables log.now }
        requires size { trail.now.variables < length self.old.state.seen }
        requires room { length self.old.state.hints < length self.old.state.seen }
        requires few { length self.old.positions ≤ marked_count self.old.state.seen }
        ensures marks { (c : List Literal) → clause_at log.now id ≡ Some c →
            MarksOthers (literals trail.now.entries) c self.old.state.seen self.new.state.seen }
        ensures count { (c : List Literal) (i : ℕ) → clause_at log.now id ≡ Some c →
            AreFalseIn (literals trail.now.entries) c (literals (bottom i trail.now.entries)) →
            marked_at level self.new.state.seen (bottom i trail.now.entries) ≡
            marked_at level self.old.state.seen (bottom i trail.now.entries) + result }
        ensures awaited { (i : ℕ) → Awaits self.old (bottom i trail.now.entries) →
            Awaits self.new (bottom i trail.now.entries) }
        ensures size { length self.new.state.seen ≡ length self.old.state.seen }
        ensures lits { self.new.state.lits ≡ self.old.state.lits }
        ensures hints { self.new.state.hints ≡ id ∷ self.old.state.hints }
    {
        self.hints.push_reserved(id);
        match log.clause(id) {
            Some(clause) => mark_others(&mut self.seen, &mut self.positions, trail, clause, level),
            None => 0,
        }
    }

    /// The level to which the search jumps back: the latest one among the literals of the clause
    /// but the first, or 0.
    pub fn jump_level(&self, trail: &Trail) -> u64
        requires { IsUpTo trail.now.variables self.now.state.lits }
        ensures { IsJump trail.now.entries self.now.state.lits result }
    {
        match self.lits.get(1) {
            Some(literal) => trail.level_of(literal.var()),
            None => 0,
        }
    }

    /// The line of the clause.
    ///
    /// # Errors
    ///
    /// `AllocError` where memory is refused.
    pub fn line(&self, alloc: Global, kind: LineKind) -> Result<LogLine, AllocError>
        ensures { IfOk result (λ line. line ≡
            record { kind = kind; lits = self.now.state.lits; hints = self.now.state.hints }) }
    {
        Ok(LogLine {
            kind,
            lits: SLits::from_slice(alloc, self.lits.as_slice())?,
            hints: Ids::from_vec(self.hints.iter().rev().copied().collect(alloc)?),
        })
    }
}
