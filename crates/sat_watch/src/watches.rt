ghost use Rattle.std.specs.Prelude.{◌≡◌, ◌≢◌, ◌<◌, ◌++◌, ◌∷◌, [], length, Some, IfOk, OnOk, OnErr};
ghost use Rattle.sat_watch.specs.Watched.{Watched, HasPlace, watchers, pair_at, first_of, next_of, after, IsAmong, HasWatch, set_pair, Joins, Moves, IsWatching};

use crate::record::{Record, Watch};
use sat_log::SLit;
use std::alloc::{AllocError, Global};
use std::marker::Model;

/// The two watched literals of each clause, and for each literal the clauses that watch it.
#[derive(Debug, Drop)]
pub struct Watches {
    /// The first clause that watches a literal, by the literal's place.
    heads: Vec<Option<usize>>,
    /// By the numbers of clauses.
    records: Vec<Record>,
}

impl Model for Watches {
    ghost use Rattle.sat_watch.specs.Watched.{Watched};
    ghost use Rattle.sat_watch.specs.Threads.{watched_in, KeepsWatches};

    ghost Value = { Watched };

    ghost view = { λ w. watched_in w.heads.items w.records.items };

    ghost invariant = { λ w. KeepsWatches w.heads.items w.records.items };
}

impl Watches {
    /// No clauses, and no literals.
    pub fn new(alloc: Global) -> Watches
        ensures { result ≡ record { pairs = []; lists = [] } }
    {
        Watches {
            heads: Vec::new(alloc),
            records: Vec::new(alloc),
        }
    }

    /// Makes room for one more literal, by its place. No clause watches it.
    ///
    /// # Errors
    ///
    /// `AllocError` where memory is refused; nothing changes.
    pub fn add_place(&mut self) -> Result<(), AllocError>
        ensures ok { OnOk result (self.new ≡
            record { pairs = self.old.pairs; lists = self.old.lists ++ [] ∷ [] }) }
        ensures err { OnErr result (self.new ≡ self.old) }
    {
        self.heads.push(None)?;
        Ok(())
    }

    /// Adds a clause that watches these two literals, as the first one of their lists, and answers
    /// its number: they count from 0.
    ///
    /// # Errors
    ///
    /// `AllocError` where memory is refused; nothing changes.
    pub fn add(&mut self, first: SLit, second: SLit) -> Result<usize, AllocError>
        requires first { HasPlace self.old first }
        requires second { HasPlace self.old second }
        requires apart { first ≢ second }
        ensures number { IfOk result (λ c. c ≡ length self.old.pairs) }
        ensures pairs { OnOk result (self.new.pairs ≡
            self.old.pairs ++ record { first = first; second = second } ∷ []) }
        ensures lists { OnOk result
            (Joins self.old self.new first second (length self.old.pairs)) }
        ensures err { OnErr result (self.new ≡ self.old) }
    {
        self.records.reserve(1)?;
        let clause = self.records.len();
        let record = Record {
            first: Watch {
                literal: first,
                next: self.heads[first.index()],
            },
            second: Watch {
                literal: second,
                next: self.heads[second.index()],
            },
        };
        self.records.push_reserved(record);
        self.heads[first.index()] = Some(clause);
        self.heads[second.index()] = Some(clause);
        Ok(clause)
    }

    /// The two literals that a clause watches.
    pub fn watched(&self, clause: usize) -> (SLit, SLit)
        requires { clause < length self.now.pairs }
        ensures first { result.0 ≡ (pair_at self.now clause).first }
        ensures second { result.1 ≡ (pair_at self.now clause).second }
    {
        let record = &self.records[clause];
        (record.first.literal, record.second.literal)
    }

    /// The first clause that watches a literal.
    pub fn first(&self, literal: SLit) -> Option<usize>
        requires { HasPlace self.now literal }
        ensures value { result ≡ first_of (watchers self.now literal) }
        ensures exact { IsWatching self.now }
    {
        self.heads[literal.index()]
    }

    /// The clause behind this one among those that watch a literal.
    pub fn next(&self, literal: SLit, clause: usize) -> Option<usize>
        requires place { HasPlace self.now literal }
        requires watches { IsAmong (watchers self.now literal) clause }
        ensures value { result ≡ next_of (watchers self.now literal) clause }
        ensures exact { IsWatching self.now }
    {
        self.records[clause].next(literal)
    }

    /// Moves a watch as `move_watch` does, where the clause is the first of its list.
    fn move_first(&mut self, literal: SLit, clause: usize, to: SLit)
        requires place { HasPlace self.old literal }
        requires to { HasPlace self.old to }
        requires stands { first_of (watchers self.old literal) ≡ Some clause }
        requires apart { to ≢ literal }
        requires other { ¬ HasWatch (pair_at self.old clause) to }
        ensures lists { Moves self.old self.new literal to clause }
        ensures pairs { self.new.pairs ≡ set_pair self.old.pairs clause literal to }
    {
        let next = self.records[clause].next(literal);
        self.heads[literal.index()] = next;
        let watch = Watch {
            literal: to,
            next: self.heads[to.index()],
        };
        self.records[clause].exchange(literal, watch);
        self.heads[to.index()] = Some(clause);
    }

    /// Moves a watch as `move_watch` does, where the clause stands behind another one in its list.
    fn move_behind(&mut self, literal: SLit, before: usize, clause: usize, to: SLit)
        requires place { HasPlace self.old literal }
        requires to { HasPlace self.old to }
        requires stands { next_of (watchers self.old literal) before ≡ Some clause }
        requires apart { to ≢ literal }
        requires other { ¬ HasWatch (pair_at self.old clause) to }
        ensures lists { Moves self.old self.new literal to clause }
        ensures pairs { self.new.pairs ≡ set_pair self.old.pairs clause literal to }
    {
        let next = self.records[clause].next(literal);
        self.records[before].relink(literal, next);
        let watch = Watch {
            literal: to,
            next: self.heads[to.index()],
        };
        self.records[clause].exchange(literal, watch);
        self.heads[to.index()] = Some(clause);
    }

    /// Makes a clause watch another literal in place of one. It stands right behind the clause
    /// `before` among those that watch the old literal, or is the first of them, and is the first
    /// of those that watch the new one.
    pub fn move_watch(&mut self, literal: SLit, before: Option<usize>, clause: usize, to: SLit)
        requires place { HasPlace self.old literal }
        requires to { HasPlace self.old to }
        requires stands { after (watchers self.old literal) before ≡ Some clause }
        requires apart { to ≢ literal }
        requires other { ¬ HasWatch (pair_at self.old clause) to }
        ensures lists { Moves self.old self.new literal to clause }
        ensures pairs { self.new.pairs ≡ set_pair self.old.pairs clause literal to }
    {
        match before {
            None => self.move_first(literal, clause, to),
            Some(before) => self.move_behind(literal, before, clause, to),
        }
    }
}
