ghost use Rattle.std.specs.Prelude.{◌≡◌, ◌++◌, ◌∷◌, ◌≤◌, ◌<◌, ◌^◌, [], false, length, vec_capacity, IfOk, OnOk, OnErr};
ghost use Rattle.sat_log.specs.Packing.{packed};
ghost use Rattle.sat_log.specs.Marked.{place, places, placed, HasPlace, HasRoomFor, KeepsRoom, IsClear};
ghost use Rattle.sat_log.specs.Checking.{is_set};

use crate::SLit;
use indexmap::IndexSet;
use std::alloc::{AllocError, Global};
use std::marker::Model;

/// What a clause is where some literals are set.
#[derive(Clone, Copy, Debug)]
pub(crate) enum Look {
    /// All of its literals are false.
    Falsified,
    /// This literal is unset, and all others are false.
    Propagates(SLit),
    /// It has a true literal, or two that are unset.
    Unresolved,
}

/// A table of the literals that are set while a line is checked. It has room for the variables from
/// 1 to some last one, whose places are their numbers, and for some others, whose places an index
/// has. So a great variable costs no more than a small one.
#[derive(Debug, Drop)]
pub struct Marks {
    room: u64,
    far: IndexSet<u64>,
    truths: Vec<bool>,
    trail: Vec<SLit>,
}

impl Model for Marks {
    ghost use Rattle.std.specs.Prelude.{vec_capacity};
    ghost use Rattle.sat_log.specs.Marked.{Marked, Agrees};

    ghost Value = { Marked };

    ghost view = { λ m. record { room = m.room; far = m.far.keys; set = m.trail.items } };

    ghost invariant = { λ m. Agrees m.room m.far.keys m.truths.items m.trail.items
        (vec_capacity m.trail) };
}

impl Marks {
    /// Clear marks with room for the variables from 1 to this one.
    ///
    /// # Errors
    ///
    /// `AllocError` where memory is refused.
    pub fn new(alloc: Global, variables: u64) -> Result<Marks, AllocError>
        ensures room { IfOk result (λ m. m.room ≡ variables) }
        ensures clear { IfOk result (λ m. m.set ≡ []) }
    {
        if variables >= 1 << 62 {
            return Err(AllocError);
        }
        let size = 2 * variables as usize + 2;
        let mut truths = Vec::new(alloc);
        truths.resize(size, false)?;
        Ok(Marks {
            room: variables,
            far: IndexSet::new(alloc),
            truths,
            trail: Vec::with_capacity(alloc, size)?,
        })
    }

    /// Whether this literal is set.
    pub(crate) fn is_set(&self, literal: SLit) -> bool
        requires { HasPlace self.now.room self.now.far literal.var }
        ensures { result ≡ is_set self.now.set literal }
    {
        self.truths[index(self.room, &self.far, literal)]
    }

    /// Sets a literal that is not set.
    pub(crate) fn set(&mut self, literal: SLit)
        requires room { HasPlace self.old.room self.old.far literal.var }
        requires unset { is_set self.old.set literal ≡ false }
        ensures set { self.new.set ≡ self.old.set ++ literal ∷ [] }
        ensures room { self.new.room ≡ self.old.room }
        ensures far { self.new.far ≡ self.old.far }
    {
        let index = index(self.room, &self.far, literal);
        self.truths[index] = true;
        self.trail.push_reserved(literal);
    }

    /// Makes room for the variables of a clause: for those up to the limit by their numbers, and
    /// for each other one by itself.
    ///
    /// # Errors
    ///
    /// `AllocError` where memory is refused; there is room then for all for which there was.
    pub(crate) fn make_room_for(&mut self, clause: &[SLit], limit: u64) -> Result<(), AllocError>
        requires { self.old.set ≡ [] }
        ensures ok { OnOk result (HasRoomFor self.new clause.now) }
        ensures keeps { KeepsRoom self.old self.new }
        ensures clear { self.new.set ≡ [] }
    {
        for literal in clause {
            self.make_room(literal.var(), limit)?;
        }
        Ok(())
    }

    /// Makes room for a variable.
    fn make_room(&mut self, variable: u64, limit: u64) -> Result<(), AllocError>
        requires { self.old.set ≡ [] }
        ensures ok { OnOk result (HasPlace self.new.room self.new.far variable) }
        ensures keeps { KeepsRoom self.old self.new }
        ensures clear { self.new.set ≡ [] }
    {
        if variable <= self.room {
            return Ok(());
        }
        if variable <= limit {
            self.widen(variable.max(self.room.saturating_mul(2)))
        } else {
            self.add_far(variable)
        }
    }

    /// Makes room for the variables up to this one.
    fn widen(&mut self, room: u64) -> Result<(), AllocError>
        requires clear { self.old.set ≡ [] }
        requires more { self.old.room ≤ room }
        ensures ok { OnOk result (self.new.room ≡ room) }
        ensures keeps { KeepsRoom self.old self.new }
        ensures clear { self.new.set ≡ [] }
    {
        if room >= 1 << 62 {
            return Err(AllocError);
        }
        let places = room as usize + 1 + self.far.len();
        stretch(&mut self.truths, &mut self.trail, 2 * places)?;
        self.room = room;
        Ok(())
    }

    /// Makes room for a variable past the others.
    fn add_far(&mut self, variable: u64) -> Result<(), AllocError>
        requires clear { self.old.set ≡ [] }
        requires past { self.old.room < variable }
        ensures ok { OnOk result (HasPlace self.new.room self.new.far variable) }
        ensures keeps { KeepsRoom self.old self.new }
        ensures clear { self.new.set ≡ [] }
    {
        let places = self.room as usize + 2 + self.far.len();
        stretch(&mut self.truths, &mut self.trail, 2 * places)?;
        let Ok(_) = self.far.insert(variable) else {
            return Err(AllocError);
        };
        Ok(())
    }

    /// Takes all marks away again.
    pub(crate) fn clear(&mut self)
        ensures set { self.new.set ≡ [] }
        ensures room { self.new.room ≡ self.old.room }
        ensures far { self.new.far ≡ self.old.far }
    {
        while let Some(literal) = self.trail.pop() {
            let index = index(self.room, &self.far, literal);
            self.truths[index] = false;
        }
    }
}

/// The place of a variable: its number up to the room, and then those that are far in their order.
fn place(room: u64, far: &IndexSet<u64>, variable: u64) -> usize
    requires { places room far.now.keys < 2 ^ 62 }
    ensures { result ≡ place room far.now.keys variable }
{
    if variable <= room {
        return variable as usize;
    }
    match far.get_index_of(&variable) {
        Some(behind) => room as usize + 1 + behind,
        None => room as usize + 1 + far.len(),
    }
}

/// The place of a literal in the table.
fn index(room: u64, far: &IndexSet<u64>, literal: SLit) -> usize
    requires fits { places room far.now.keys < 2 ^ 62 }
    requires room { HasPlace room far.now.keys literal.var }
    ensures { result ≡ packed (placed room far.now.keys literal) }
{
    2 * place(room, far, literal.var()) + if literal.is_negative() { 1 } else { 0 }
}

/// Makes a table in which nothing is set so long, and gives its trail room for all its places.
fn stretch(truths: &mut Vec<bool>, trail: &mut Vec<SLit>, size: usize) -> Result<(), AllocError>
    requires clear { IsClear truths.old.items }
    requires spare { length truths.old.items ≤ vec_capacity trail.old }
    ensures ok { OnOk result (size ≤ length truths.new.items) }
    ensures longer { length truths.old.items ≤ length truths.new.items }
    ensures clear { IsClear truths.new.items }
    ensures trail { trail.new.items ≡ trail.old.items }
    ensures spare { length truths.new.items ≤ vec_capacity trail.new }
{
    if size <= truths.len() {
        return Ok(());
    }
    trail.reserve(size)?;
    truths.resize(size, false)
}
