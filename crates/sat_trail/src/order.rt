//! The order in which variables are decided: those of late conflicts come first (Biere and Fröhlich
//! 2015).
//!
//! It only advises. Whoever asks it looks whether the variable has a value, and no contract says
//! which one comes.

ghost use Rattle.std.specs.Prelude.{◌≡◌};

use sat_log::SLit;
use std::alloc::{AllocError, Global};

/// Where moves begin to count. Variables that never moved have lower numbers, the first one the
/// greatest of these.
const FIRST_MOVE: u64 = 1 << 62;

/// A variable's place among the others, and its last value.
#[derive(Clone, Copy, Debug)]
struct Link {
    older: usize,
    newer: usize,
    /// The number of its last move.
    moved: u64,
    negative: bool,
}

/// A queue of variables: the one that moved last is the newest.
#[derive(Debug, Drop)]
pub(crate) struct Order {
    /// By variables, in a ring: number 0 stands between the newest and the oldest.
    links: Vec<Link>,
    /// The number of the last move.
    moves: u64,
    /// Each variable that is newer than this one has a value.
    next: usize,
    /// The variables of a conflict, with the numbers of their last moves.
    met: Vec<(u64, usize)>,
}

impl Order {
    /// No variables.
    pub(crate) fn new(alloc: Global) -> Result<Order, AllocError> {
        let ends = Link {
            older: 0,
            newer: 0,
            moved: 0,
            negative: true,
        };
        Ok(Order {
            links: vec![in alloc; ends]?,
            moves: FIRST_MOVE,
            next: 0,
            met: Vec::new(alloc),
        })
    }

    /// Adds a variable as the oldest one: they are numbered from 1.
    ///
    /// # Errors
    ///
    /// `AllocError` where memory is refused.
    pub(crate) fn add(&mut self) -> Result<(), AllocError> {
        let var = self.links.len();
        let oldest = self.links.get(0).map_or(0, |ends| ends.newer);
        self.links.push(Link {
            older: 0,
            newer: oldest,
            moved: FIRST_MOVE.saturating_sub(var as u64),
            negative: true,
        })?;
        self.join(0, var);
        self.join(var, oldest);
        if self.next == 0 {
            self.next = var;
        }
        Ok(())
    }

    /// Makes two neighbours.
    fn join(&mut self, older: usize, newer: usize)
        ensures { self.new.met ≡ self.old.met }
    {
        if let Some(link) = self.links.get_mut(older) {
            link.newer = newer;
        }
        if let Some(link) = self.links.get_mut(newer) {
            link.older = older;
        }
    }

    /// The number of a variable's last move.
    fn moved(&self, var: usize) -> u64 {
        self.links.get(var).map_or(0, |link| link.moved)
    }

    /// The next older variable; the newest one of all for number 0.
    fn older(&self, var: usize) -> usize {
        self.links.get(var).map_or(0, |link| link.older)
    }

    /// Makes a variable the newest.
    fn renew(&mut self, var: usize)
        ensures { self.new.met ≡ self.old.met }
    {
        let Some(link) = self.links.get(var).copied() else {
            return;
        };
        if self.next == var {
            self.next = link.older;
        }
        self.join(link.older, link.newer);
        let newest = self.older(0);
        self.join(newest, var);
        self.join(var, 0);
        self.moves = self.moves.saturating_add(1);
        if let Some(link) = self.links.get_mut(var) {
            link.moved = self.moves;
        }
    }

    /// Makes these variables the newest, in the order in which they stand among each other. All of
    /// them have values.
    pub(crate) fn prefer(&mut self, variables: &[u64]) {
        self.met.clear();
        for &var in variables {
            let place = var as usize;
            let moved = self.moved(place);
            // Where memory is refused, the variable keeps its place.
            let _kept = self.met.push((moved, place));
        }
        self.met.sort_unstable();
        self.met.reverse();
        while let Some((_, var)) = self.met.pop() {
            self.renew(var);
        }
    }

    /// Notes that a variable lost its value, and which one it was.
    pub(crate) fn release(&mut self, literal: SLit) {
        let var = literal.var() as usize;
        if let Some(link) = self.links.get_mut(var) {
            link.negative = literal.is_negative();
        }
        if self.moved(var) > self.moved(self.next) {
            self.next = var;
        }
    }

    /// The newest variable that may have no value, with the sign of its last one.
    pub(crate) fn candidate(&self) -> Option<SLit> {
        let link = self.links.get(self.next)?;
        if self.next == 0 {
            return None;
        }
        Some(SLit::new(self.next as u64, link.negative))
    }

    /// Notes that the candidate has a value.
    pub(crate) fn skip(&mut self) {
        self.next = self.older(self.next);
    }
}
