//! The trail of literals that are true, with a truth value for each literal, and a level and a
//! reason for each variable.

ghost use Rattle.std.specs.Prelude.{◌≡◌, ◌+◌, ◌≤◌, ◌<◌, ◌^◌, ◌∷◌, ◌↔◌, [], length, None, Some, IsTrue, IfOk, IfSome, IfNone, OnOk, OnErr};
ghost use Rattle.std.specs.List.{AllByRecursion};
ghost use Rattle.sat_log.specs.Clause.{Among, IsUnset};
ghost use Rattle.sat_trail.specs.Trail.{literals, top, before, bottom, AreAllSet, IsPosition};
ghost use Rattle.sat_trail.specs.Assignment.{assignment, AreTrue};

use crate::order::Order;
use sat_log::SLit;
use std::alloc::{AllocError, Global};
use std::marker::Model;

/// A literal that is true.
#[derive(Clone, Copy, Debug)]
pub struct Entry {
    /// The literal.
    pub literal: SLit,
    /// The level that was open when it became true.
    pub level: u64,
    /// The clause that made it true, by its id; none if it was decided.
    pub reason: Option<u64>,
}

/// What is true, in the order in which it became so. All room that it needs is there once a
/// variable is.
#[derive(Debug, Drop)]
pub struct Trail {
    variables: u64,
    /// By the places of literals.
    truths: Vec<bool>,
    /// By variables.
    levels: Vec<u64>,
    reasons: Vec<Option<u64>>,
    /// How many literals were true when that of the variable became so.
    positions: Vec<usize>,
    trail: Vec<SLit>,
    order: Order,
}

impl Model for Trail {
    ghost use Rattle.std.specs.Prelude.{map, reverse, vec_capacity};
    ghost use Rattle.sat_trail.specs.Trail.{Trailed, entry_of, KeepsTrail};

    ghost Value = { Trailed };

    ghost view = { λ t. record {
      variables = t.variables;
      entries = map (entry_of t.levels.items t.reasons.items) (reverse t.trail.items);
    } };

    ghost invariant = { λ t. KeepsTrail t.variables t.truths.items t.levels.items t.reasons.items
        t.positions.items (reverse t.trail.items) (vec_capacity t.trail) };
}

impl Trail {
    /// A trail without variables.
    pub fn new(alloc: Global) -> Result<Trail, AllocError>
        ensures { IfOk result (λ t. t ≡ record { variables = 0; entries = [] }) }
    {
        Ok(Trail {
            variables: 0,
            truths: vec![in alloc; false, false]?,
            levels: vec![in alloc; 0]?,
            reasons: vec![in alloc; None]?,
            positions: vec![in alloc; 0]?,
            trail: Vec::new(alloc),
            order: Order::new(alloc)?,
        })
    }

    /// How many variables there are.
    pub fn variables(&self) -> u64
        ensures count { result ≡ self.now.variables }
        ensures small { result < 2 ^ 63 }
    {
        self.variables
    }

    /// How many literals are true.
    pub fn len(&self) -> usize
        ensures count { result ≡ length self.now.entries }
        ensures room { result ≤ self.now.variables }
    {
        self.trail.len()
    }

    /// Whether a literal is true.
    pub fn is_true(&self, literal: SLit) -> bool
        requires { literal.var ≤ self.now.variables }
        ensures { IsTrue result ↔ Among (literals self.now.entries) literal }
    {
        self.truths[literal.index()]
    }

    /// The level of the latest literal: as many levels are open.
    pub fn level(&self) -> u64
        ensures value { result ≡ top self.now.entries }
        ensures small { top self.now.entries ≤ length self.now.entries → result < 2 ^ 63 }
    {
        match self.trail.last() {
            Some(literal) => self.levels[literal.var() as usize],
            None => 0,
        }
    }

    /// The level at which a variable got its value, if it has one.
    pub fn level_of(&self, var: u64) -> u64
        requires { var ≤ self.now.variables }
        ensures { AllByRecursion (λ e. e.literal.var ≡ var → result ≡ e.level) self.now.entries }
    {
        self.levels[var as usize]
    }

    /// How many entries were made before that of a variable, if it has one.
    pub fn position(&self, var: u64) -> usize
        requires { var ≤ self.now.variables }
        ensures { IsPosition var result self.now.entries }
    {
        self.positions[var as usize]
    }

    /// The entry that was made when there were `i` others.
    pub fn entry(&self, i: usize) -> Entry
        requires { i < length self.now.entries }
        ensures entry { bottom (i + 1) self.now.entries ≡ result ∷ bottom i self.now.entries }
        ensures exists { result.literal.var ≤ self.now.variables }
        ensures room { i < self.now.variables }
    {
        let literal = self.trail[i];
        let var = literal.var() as usize;
        Entry {
            literal,
            level: self.levels[var],
            reason: self.reasons[var],
        }
    }

    /// The first literal that is neither true nor false.
    fn first_unset(&self) -> Option<SLit>
        ensures exists { IfSome result (λ l. l.var ≤ self.now.variables) }
        ensures unset { IfSome result (IsUnset (literals self.now.entries)) }
        ensures none { IfNone result (AreAllSet self.now.variables (literals self.now.entries)) }
    {
        for var in 0..self.variables {
            let literal = SLit::new(var + 1, true);
            if !self.is_true(literal) && !self.is_true(literal.negated()) {
                return Some(literal);
            }
        }
        None
    }

    /// What the order advises, if it knows a variable without value.
    fn advised(&mut self) -> Option<SLit>
        ensures exists { IfSome result (λ l. l.var ≤ self.old.variables) }
        ensures unset { IfSome result (IsUnset (literals self.old.entries)) }
        ensures same { self.new ≡ self.old }
    {
        for _ in 0..self.variables {
            let literal = self.order.candidate()?;
            if literal.var() <= self.variables
                && !self.is_true(literal)
                && !self.is_true(literal.negated())
            {
                return Some(literal);
            }
            self.order.skip();
        }
        None
    }

    /// A literal that is neither true nor false: what its variable was last, or the negative one,
    /// of the variable that was preferred last. Only where the order knows none all variables are
    /// looked at.
    pub fn unset(&mut self) -> Option<SLit>
        ensures exists { IfSome result (λ l. l.var ≤ self.old.variables) }
        ensures unset { IfSome result (IsUnset (literals self.old.entries)) }
        ensures none { IfNone result (AreAllSet self.old.variables (literals self.old.entries)) }
        ensures same { self.new ≡ self.old }
    {
        match self.advised() {
            Some(literal) => Some(literal),
            None => self.first_unset(),
        }
    }

    /// Prefers these variables from now on.
    pub fn prefer(&mut self, variables: &[u64])
        ensures { self.new ≡ self.old }
    {
        self.order.prefer(variables);
    }

    /// A value for each variable: what is true is so under them.
    ///
    /// # Errors
    ///
    /// `AllocError` where memory is refused.
    pub fn values(&self, alloc: Global) -> Result<Vec<bool>, AllocError>
        ensures one_each { IfOk result (λ v. length v.items ≡ self.now.variables) }
        ensures true_ { IfOk result (λ v. AreTrue (assignment v.items)
            (literals self.now.entries)) }
    {
        let mut values = Vec::with_capacity(alloc, self.variables as usize)?;
        for var in 0..self.variables {
            values.push(self.is_true(SLit::new(var + 1, false)))?;
        }
        Ok(values)
    }

    /// Adds a variable, with room for its value.
    ///
    /// # Errors
    ///
    /// `AllocError` where memory is refused; the trail stays as it was.
    pub fn add_variable(&mut self) -> Result<(), AllocError>
        ensures ok { OnOk result (self.new ≡ record {
          variables = self.old.variables + 1;
          entries = self.old.entries;
        }) }
        ensures err { OnErr result (self.new ≡ self.old) }
    {
        self.truths.reserve(2)?;
        self.levels.reserve(1)?;
        self.reasons.reserve(1)?;
        self.positions.reserve(1)?;
        let spare = self.levels.len().saturating_sub(self.trail.len());
        self.trail.reserve(spare)?;
        self.order.add()?;
        self.truths.push_reserved(false);
        self.truths.push_reserved(false);
        self.levels.push_reserved(0);
        self.reasons.push_reserved(None);
        self.positions.push_reserved(0);
        self.variables += 1;
        Ok(())
    }

    /// Opens a level, and makes a literal true in it.
    pub fn decide(&mut self, literal: SLit)
        requires exists { literal.var ≤ self.old.variables }
        requires unset { IsUnset (literals self.old.entries) literal }
        requires level { top self.old.entries ≤ length self.old.entries }
        ensures entries { self.new.entries ≡ record {
          literal = literal;
          level = top self.old.entries + 1;
          reason = None;
        } ∷ self.old.entries }
        ensures room { length self.new.entries ≤ self.new.variables }
        ensures variables { self.new.variables ≡ self.old.variables }
    {
        self.push(literal, self.level() + 1, None);
    }

    /// Makes a literal true in the open level, by the clause of this id.
    pub fn imply(&mut self, literal: SLit, reason: u64)
        requires exists { literal.var ≤ self.old.variables }
        requires unset { IsUnset (literals self.old.entries) literal }
        ensures entries { self.new.entries ≡ record {
          literal = literal;
          level = top self.old.entries;
          reason = Some reason;
        } ∷ self.old.entries }
        ensures room { length self.new.entries ≤ self.new.variables }
        ensures variables { self.new.variables ≡ self.old.variables }
    {
        self.push(literal, self.level(), Some(reason));
    }

    /// Takes back what is true since a later level than this one opened.
    pub fn backjump(&mut self, level: u64)
        ensures entries { self.new.entries ≡ before (level + 1) self.old.entries }
        ensures variables { self.new.variables ≡ self.old.variables }
    {
        while self.level() > level {
            self.pop();
        }
    }

    /// Makes a literal true that is neither true nor false.
    fn push(&mut self, literal: SLit, level: u64, reason: Option<u64>)
        requires exists { literal.var ≤ self.old.variables }
        requires unset { IsUnset (literals self.old.entries) literal }
        ensures entries { self.new.entries ≡ record {
          literal = literal;
          level = level;
          reason = reason;
        } ∷ self.old.entries }
        ensures room { length self.new.entries ≤ self.new.variables }
        ensures variables { self.new.variables ≡ self.old.variables }
    {
        let var = literal.var() as usize;
        self.truths[literal.index()] = true;
        self.levels[var] = level;
        self.reasons[var] = reason;
        self.positions[var] = self.trail.len();
        self.trail.push_reserved(literal);
    }

    /// Takes the latest literal back.
    fn pop(&mut self)
        ensures entries { (e : _) → (es : _) → self.old.entries ≡ e ∷ es → self.new.entries ≡ es }
        ensures variables { self.new.variables ≡ self.old.variables }
    {
        if let Some(literal) = self.trail.pop() {
            self.truths[literal.index()] = false;
            self.order.release(literal);
        }
    }
}
