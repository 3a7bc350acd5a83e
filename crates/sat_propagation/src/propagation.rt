//! Unit propagation over watched literals (Moskewicz and others 2001).

ghost use Rattle.std.specs.Prelude.{◌≡◌, ◌≢◌, ◌+◌, ◌<◌, ◌≤◌, ℕ, true, List, [], ◌∷◌, Some, length, IfOk, IfSome, IfNone, OnOk, OnErr, IsTrue, ◌↔◌};
ghost use Rattle.std.specs.List.{AllByRecursion};
ghost use Rattle.sat_log.specs.Literal.{Literal, negated};
ghost use Rattle.sat_log.specs.Clause.{Among};
ghost use Rattle.sat_log.specs.Accepted.{IsLog, clause_at};
ghost use Rattle.sat_log.specs.Checking.{IsUpTo, AreUpTo};
ghost use Rattle.sat_log.specs.declared.line.LogLine.{LogLine};
ghost use Rattle.sat_watch.specs.Watched.{HasPlace, HasWatch, IsWatching, IsAmong, watchers, pair_at, after};
ghost use Rattle.sat_trail.specs.Trail.{literals, before, places};
ghost use Rattle.sat_trail.specs.Units.{IsTrail, IsConflict, AddsImplied};
ghost use Rattle.sat_trail.specs.declared.trail.Entry.{Entry};
ghost use Rattle.sat_propagation.specs.Watching.{MayWatch, AreStanding, KeepsRule, IsReady, KeepsLines, Adds, Serves, IsPart, AreSettled, VisitsTo};

use sat_log::{Log, SLit};
use sat_trail::Trail;
use sat_watch::Watches;
use std::alloc::{AllocError, Global};
use std::marker::Model;

/// What comes of a visit of a clause that watches a literal which became false.
#[derive(Clone, Copy, Debug)]
pub(crate) enum Visit {
    /// The other literal that it watches is true.
    Kept,
    /// It watches another literal now.
    Moved,
    /// The clause of this id is false.
    Conflict(u64),
}

/// The line for which two literals watch.
#[derive(Clone, Copy, Debug)]
pub struct Line {
    /// Its id; 0 for none.
    pub id: u64,
    /// Whether they are all literals of its clause: then nothing of the log is read.
    pub binary: bool,
}

/// The watches of the clauses of a log, and how far the trail was looked at.
#[derive(Debug, Drop)]
pub struct Propagation {
    watches: Watches,
    /// The line for which each watches.
    lines: Vec<Line>,
    /// How many entries of the trail were looked at.
    looked: usize,
}

impl Model for Propagation {
    ghost use Rattle.std.specs.Prelude.{◌≡◌, length};
    ghost use Rattle.sat_propagation.specs.Watching.{Propagated};

    ghost Value = { Propagated };

    ghost view = { λ p. record {
      watched = p.watches;
      lines = p.lines.items;
      looked = p.looked;
    } };

    ghost invariant = { λ p. length p.lines.items ≡ length p.watches.pairs };
}

/// Whether a clause that watches these two may watch this literal in place of one of them.
fn may_watch(trail: &Trail, literal: SLit, one: SLit, other: SLit) -> bool
    requires { literal.var ≤ trail.now.variables }
    ensures { IsTrue result ↔ MayWatch (literals trail.now.entries) one other literal }
{
    literal.index() != one.index()
        && literal.index() != other.index()
        && !trail.is_true(literal.negated())
}

/// A literal that the clause may watch in place of one of these two.
fn find(trail: &Trail, clause: &[SLit], one: SLit, other: SLit) -> Option<SLit>
    requires exist { IsUpTo trail.now.variables clause.now }
    ensures stands { IfSome result (Among clause.now) }
    ensures open_ { IfSome result (MayWatch (literals trail.now.entries) one other) }
    ensures none { IfNone result
        (AllByRecursion (λ l. ¬ MayWatch (literals trail.now.entries) one other l) clause.now) }
{
    for &literal in clause {
        if may_watch(trail, literal, one, other) {
            return Some(literal);
        }
    }
    None
}

/// The same for the clause of this line.
fn find_at(log: &Log, trail: &Trail, line: Line, one: SLit, other: SLit) -> Option<SLit>
    requires exist { AreUpTo trail.now.variables log.now }
    requires whole { (c : List Literal) → clause_at log.now line.id ≡ Some c →
        line.binary ≡ true → AllByRecursion (λ l. l ≢ one → l ≡ other) c }
    ensures stands { (c : List Literal) → clause_at log.now line.id ≡ Some c →
        IfSome result (Among c) }
    ensures open_ { IfSome result (MayWatch (literals trail.now.entries) one other) }
    ensures none { (c : List Literal) → clause_at log.now line.id ≡ Some c →
        IfNone result
        (AllByRecursion (λ l. ¬ MayWatch (literals trail.now.entries) one other l) c) }
{
    if line.binary {
        return None;
    }
    find(trail, log.clause(line.id)?, one, other)
}

impl Propagation {
    /// No clauses, and nothing looked at. There are lists for the two places that no literal has.
    ///
    /// # Errors
    ///
    /// `AllocError` where memory is refused.
    pub fn new(alloc: Global) -> Result<Propagation, AllocError>
        ensures { IfOk result (λ p. p ≡ record {
          watched = record { pairs = []; lists = [] ∷ [] ∷ [] };
          lines = [];
          looked = 0;
        }) }
    {
        let mut watches = Watches::new(alloc);
        watches.add_place()?;
        watches.add_place()?;
        Ok(Propagation {
            watches,
            lines: Vec::new(alloc),
            looked: 0,
        })
    }

    /// Makes lists for the literals of one variable more.
    ///
    /// # Errors
    ///
    /// `AllocError` where memory is refused; what is watched stays as it was.
    pub fn add_variable(&mut self) -> Result<(), AllocError>
        ensures ok { OnOk result
            (length self.new.watched.lists ≡ length self.old.watched.lists + 2) }
        ensures lists { length self.old.watched.lists ≤ length self.new.watched.lists }
        ensures pairs { self.new.watched.pairs ≡ self.old.watched.pairs }
        ensures lines { self.new.lines ≡ self.old.lines }
        ensures looked { self.new.looked ≡ self.old.looked }
    {
        self.watches.add_place()?;
        self.watches.add_place()
    }

    /// Watches two literals more, for no line yet, and answers their number.
    ///
    /// # Errors
    ///
    /// `AllocError` where memory is refused; all stays as it was.
    pub fn add(&mut self, first: SLit, second: SLit) -> Result<usize, AllocError>
        requires first { HasPlace self.old.watched first }
        requires second { HasPlace self.old.watched second }
        requires apart { first ≢ second }
        ensures ok { IfOk result (Adds self.old self.new first second) }
        ensures err { OnErr result (self.new ≡ self.old) }
    {
        self.lines.reserve(1)?;
        let watcher = self.watches.add(first, second)?;
        self.lines.push_reserved(Line {
            id: 0,
            binary: false,
        });
        Ok(watcher)
    }

    /// Makes two literals that are watched stand for this line.
    pub fn serve(&mut self, watcher: usize, line: Line)
        requires { watcher < length self.old.watched.pairs }
        ensures { Serves self.old self.new watcher line }
    {
        self.lines[watcher] = line;
    }

    /// Forgets what was looked at: the trail is looked at from its start again.
    pub fn look_from_start(&mut self)
        ensures { self.new ≡
            record { watched = self.old.watched; lines = self.old.lines; looked = 0 } }
    {
        self.looked = 0;
    }

    /// Takes back what is true since a later level than this one opened. What stays was looked at,
    /// if any was taken back.
    pub fn backjump(&mut self, trail: &mut Trail, level: u64)
        ensures entries { trail.new.entries ≡ before (level + 1) trail.old.entries }
        ensures variables { trail.new.variables ≡ trail.old.variables }
        ensures ready { (log : List LogLine) → IsReady log trail.old self.old →
            IsReady log trail.new self.new }
        ensures watched { self.new.watched ≡ self.old.watched }
        ensures lines { self.new.lines ≡ self.old.lines }
    {
        if trail.level() > level {
            trail.backjump(level);
            self.looked = trail.len();
        }
    }

    /// The other literal that it watches.
    fn other(&self, literal: SLit, watcher: usize) -> SLit
        requires inside { watcher < length self.now.watched.pairs }
        requires watches { HasWatch (pair_at self.now.watched watcher) literal }
        requires exact { IsWatching self.now.watched }
        ensures watches { HasWatch (pair_at self.now.watched watcher) result }
        ensures apart { result ≢ literal }
        ensures only { (l : Literal) → HasWatch (pair_at self.now.watched watcher) l →
            l ≢ literal → l ≡ result }
    {
        let (first, second) = self.watches.watched(watcher);
        if first.index() == literal.index() {
            second
        } else {
            first
        }
    }

    /// Looks at one that watches a literal which became false: right behind `before` among those,
    /// or the first of them.
    fn visit(
        &mut self,
        log: &Log,
        trail: &mut Trail,
        literal: SLit,
        before: Option<usize>,
        watcher: usize,
    ) -> Visit
        requires log { IsLog log.now }
        requires trail { IsTrail log.now trail.old.entries }
        requires exist { AreUpTo trail.old.variables log.now }
        requires places { places trail.old.variables ≤ length self.old.watched.lists }
        requires literal { literal.var ≤ trail.old.variables }
        requires false_ { Among (literals trail.old.entries) (negated literal) }
        requires exact { IsWatching self.old.watched }
        requires stands { after (watchers self.old.watched literal) before ≡ Some watcher }
        requires standing { AreStanding log.now self.old }
        ensures visit { VisitsTo log.now trail.new.entries self.old self.new
            literal watcher result }
        ensures standing { AreStanding log.now self.new }
        ensures rule { (part : List Entry) → IsPart part trail.old.entries →
            KeepsRule part trail.old.entries self.old → KeepsRule part trail.new.entries self.new }
        ensures trail { IsTrail log.now trail.new.entries }
        ensures implied { AddsImplied trail.old.entries trail.new.entries }
        ensures variables { trail.new.variables ≡ trail.old.variables }
    {
        let other = self.other(literal, watcher);
        let line = self.lines[watcher];
        let id = line.id;
        if id == 0 || trail.is_true(other) {
            return Visit::Kept;
        }
        match find_at(log, trail, line, literal, other) {
            Some(to) => {
                self.watches.move_watch(literal, before, watcher, to);
                Visit::Moved
            }
            None if trail.is_true(other.negated()) => Visit::Conflict(id),
            None => {
                trail.imply(other, id);
                Visit::Kept
            }
        }
    }

    /// The first that watches a literal, or the one right behind another that does.
    fn behind(&self, literal: SLit, before: Option<usize>) -> Option<usize>
        requires place { HasPlace self.now.watched literal }
        requires before { IfSome before (IsAmong (watchers self.now.watched literal)) }
        ensures value { result ≡ after (watchers self.now.watched literal) before }
        ensures exact { IsWatching self.now.watched }
    {
        match before {
            None => self.watches.first(literal),
            Some(watcher) => self.watches.next(literal, watcher),
        }
    }

    /// Visits all that watch a literal which became false. Answers the id of a clause that is
    /// false, if one is.
    fn walk(&mut self, log: &Log, trail: &mut Trail, literal: SLit) -> Option<u64>
        requires log { IsLog log.now }
        requires trail { IsTrail log.now trail.old.entries }
        requires exist { AreUpTo trail.old.variables log.now }
        requires places { places trail.old.variables ≤ length self.old.watched.lists }
        requires literal { literal.var ≤ trail.old.variables }
        requires false_ { Among (literals trail.old.entries) (negated literal) }
        requires standing { AreStanding log.now self.old }
        ensures conflict { IfSome result (IsConflict log.now (literals trail.new.entries)) }
        ensures settled { IfNone result (AreSettled self.new trail.new.entries literal) }
        ensures standing { AreStanding log.now self.new }
        ensures rule { (part : List Entry) → IsPart part trail.old.entries →
            KeepsRule part trail.old.entries self.old → KeepsRule part trail.new.entries self.new }
        ensures trail { IsTrail log.now trail.new.entries }
        ensures implied { AddsImplied trail.old.entries trail.new.entries }
        ensures variables { trail.new.variables ≡ trail.old.variables }
        ensures lines { KeepsLines self.old self.new }
        ensures looked { self.new.looked ≡ self.old.looked }
    {
        let mut before = None;
        while let Some(watcher) = self.behind(literal, before) {
            match self.visit(log, trail, literal, before, watcher) {
                Visit::Kept => before = Some(watcher),
                Visit::Moved => {}
                Visit::Conflict(id) => return Some(id),
            }
        }
        None
    }

    /// Makes true what unit clauses imply, until a clause is false or none is unit. Answers the id
    /// of a clause that is false.
    pub fn propagate(&mut self, log: &Log, trail: &mut Trail) -> Option<u64>
        requires log { IsLog log.now }
        requires trail { IsTrail log.now trail.old.entries }
        requires exist { AreUpTo trail.old.variables log.now }
        requires ready { IsReady log.now trail.old self.old }
        ensures conflict { IfSome result (IsConflict log.now (literals trail.new.entries)) }
        ensures all { IfNone result (length trail.new.entries ≤ self.new.looked) }
        ensures ready { IsReady log.now trail.new self.new }
        ensures trail { IsTrail log.now trail.new.entries }
        ensures implied { AddsImplied trail.old.entries trail.new.entries }
        ensures variables { trail.new.variables ≡ trail.old.variables }
        ensures lines { KeepsLines self.old self.new }
    {
        while self.looked < trail.len() {
            let entry = trail.entry(self.looked);
            if let Some(id) = self.walk(log, trail, entry.literal.negated()) {
                return Some(id);
            }
            self.looked += 1;
        }
        None
    }
}
