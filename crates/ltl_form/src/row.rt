ghost use Rattle.std.specs.Prelude.{◌≡◌, ℕ, ◌+◌, ◌<◌, ◌≤◌, true, false, not, ◌&&◌, ◌||◌};
ghost use Rattle.std.specs.Prelude.{length, slice_set, IfOk};
ghost use Rattle.smv_meaning.specs.Sweeps.{ahead};
ghost use Rattle.ltl_form.specs.Rows.{told, turned, ahead_turned, around_turned};

use std::alloc::{AllocError, Global};
use std::marker::Model;

/// A truth value for each place, from 0.
#[derive(Drop)]
pub(crate) struct Row {
    values: Vec<bool>,
}

impl Model for Row {
    ghost use Rattle.std.specs.Prelude.{Bool, List};

    ghost Value = { List Bool };

    ghost view = { λ r. r.values.items };
}

impl Row {
    /// A row with one value at so many places.
    pub(crate) fn filled(alloc: Global, places: usize, value: bool) -> Result<Row, AllocError>
        ensures places { IfOk result (λ row. length row ≡ places) }
        ensures values { (p : ℕ) → p < places → IfOk result (λ row. told row p ≡ value) }
    {
        Ok(Row {
            values: vec![in alloc; value; places]?,
        })
    }

    /// How many places it has.
    pub(crate) fn len(&self) -> usize
        ensures { result ≡ length self.now }
    {
        self.values.len()
    }

    /// The value at a place.
    pub(crate) fn get(&self, place: usize) -> bool
        requires { place < length self.now }
        ensures { result ≡ told self.now place }
    {
        self.values[place]
    }

    /// Puts a value at a place.
    pub(crate) fn set(&mut self, place: usize, value: bool)
        requires { place < length self.old }
        ensures { self.new ≡ slice_set self.old place value }
    {
        self.values[place] = value;
    }

    /// The same values, or their negations.
    pub(crate) fn turned(
        &self,
        alloc: Global,
        places: usize,
        negated: bool,
    ) -> Result<Row, AllocError>
        requires { places ≤ length self.now }
        ensures places { IfOk result (λ row. length row ≡ places) }
        ensures values { (p : ℕ) → p < places → IfOk result (λ row.
            told row p ≡ turned negated (told self.now p)) }
    {
        let mut row = Row::filled(alloc, places, false)?;
        for p in 0..places {
            row.set(p, self.get(p) != negated);
        }
        Ok(row)
    }

    /// Where both hold.
    pub(crate) fn both(&self, alloc: Global, other: &Row) -> Result<Row, AllocError>
        requires { length other.now ≡ length self.now }
        ensures places { IfOk result (λ row. length row ≡ length self.now) }
        ensures values { (p : ℕ) → p < length self.now → IfOk result (λ row.
            told row p ≡ (told self.now p && told other.now p)) }
    {
        let mut row = Row::filled(alloc, self.len(), false)?;
        for p in 0..self.len() {
            row.set(p, self.get(p) && other.get(p));
        }
        Ok(row)
    }

    /// Where one of them holds.
    pub(crate) fn either(&self, alloc: Global, other: &Row) -> Result<Row, AllocError>
        requires { length other.now ≡ length self.now }
        ensures places { IfOk result (λ row. length row ≡ length self.now) }
        ensures values { (p : ℕ) → p < length self.now → IfOk result (λ row.
            told row p ≡ (told self.now p || told other.now p)) }
    {
        let mut row = Row::filled(alloc, self.len(), false)?;
        for p in 0..self.len() {
            row.set(p, self.get(p) || other.get(p));
        }
        Ok(row)
    }

    /// The value at the next place of each; the one after the last is given.
    pub(crate) fn shifted(&self, alloc: Global, last: bool) -> Result<Row, AllocError>
        requires { 0 < length self.now }
        ensures places { IfOk result (λ row. length row ≡ length self.now) }
        ensures values { (p : ℕ) → p + 1 < length self.now → IfOk result (λ row.
            told row p ≡ told self.now (p + 1)) }
        ensures last { IfOk result (λ row. (p : ℕ) → p + 1 ≡ length self.now → told row p ≡ last) }
    {
        let mut row = Row::filled(alloc, self.len(), last)?;
        for p in 1..self.len() {
            row.set(p - 1, self.get(p));
        }
        Ok(row)
    }
}

/// Writes from the last place down to `from` whether `second` holds at this place or a later one,
/// and `first` at each place before that; or the dual of it. What comes after the last place is
/// given.
pub(crate) fn sweep(row: &mut Row, first: &Row, second: &Row, dual: bool, after: bool, from: usize)
    requires first { length first.now ≡ length row.old }
    requires second { length second.now ≡ length row.old }
    requires from { from ≤ length row.old }
    ensures places { length row.new ≡ length row.old }
    ensures values { (p : ℕ) → from ≤ p → p < length row.old →
        told row.new p ≡
        ahead_turned dual (length row.old) (told first.now) (told second.now) after p }
{
    let mut value = after;
    let mut p = row.len();
    while from < p {
        p -= 1;
        value = step(first.get(p), second.get(p), value, dual);
        row.set(p, value);
    }
}

/// One step of a sweep.
fn step(first: bool, second: bool, value: bool, dual: bool) -> bool
    ensures { result ≡
        turned dual (turned dual second || (turned dual first && turned dual value)) }
{
    if dual {
        second && (first || value)
    } else {
        second || (first && value)
    }
}

/// What two sweeps around a loop give: the second begins with what the first found at its start.
pub(crate) fn around(
    alloc: Global,
    first: &Row,
    second: &Row,
    dual: bool,
    start: usize,
) -> Result<Row, AllocError>
    requires places { length first.now ≡ length second.now }
    requires start { start < length second.now }
    ensures places { IfOk result (λ row. length row ≡ length second.now) }
    ensures values { (p : ℕ) → p < length second.now → IfOk result (λ row.
        told row p ≡
        around_turned dual (length second.now) start (told first.now) (told second.now) p) }
{
    let mut row = Row::filled(alloc, second.len(), dual)?;
    sweep(&mut row, first, second, dual, dual, start);
    let found = row.get(start);
    sweep(&mut row, first, second, dual, found, 0);
    Ok(row)
}

/// `around` with all places as the first.
pub(crate) fn around_whole(
    alloc: Global,
    second: &Row,
    dual: bool,
    start: usize,
) -> Result<Row, AllocError>
    requires { start < length second.now }
    ensures places { IfOk result (λ row. length row ≡ length second.now) }
    ensures values { (p : ℕ) → p < length second.now → IfOk result (λ row.
        told row p ≡
        around_turned dual (length second.now) start (λ _. not dual) (told second.now) p) }
{
    let whole = Row::filled(alloc, second.len(), !dual)?;
    around(alloc, &whole, second, dual, start)
}

/// What one sweep over a path finds.
pub(crate) fn along(alloc: Global, first: &Row, second: &Row) -> Result<Row, AllocError>
    requires { length first.now ≡ length second.now }
    ensures places { IfOk result (λ row. length row ≡ length second.now) }
    ensures values { (p : ℕ) → p < length second.now → IfOk result (λ row.
        told row p ≡ ahead (length second.now) (told first.now) (told second.now) false p) }
{
    let mut row = Row::filled(alloc, second.len(), false)?;
    sweep(&mut row, first, second, false, false, 0);
    Ok(row)
}

/// `along` with all places as the first.
pub(crate) fn along_whole(alloc: Global, second: &Row) -> Result<Row, AllocError>
    ensures places { IfOk result (λ row. length row ≡ length second.now) }
    ensures values { (p : ℕ) → p < length second.now → IfOk result (λ row.
        told row p ≡ ahead (length second.now) (λ _. true) (told second.now) false p) }
{
    let whole = Row::filled(alloc, second.len(), true)?;
    along(alloc, &whole, second)
}

/// `along` of the second and of both.
pub(crate) fn along_both(alloc: Global, first: &Row, second: &Row) -> Result<Row, AllocError>
    requires { length first.now ≡ length second.now }
    ensures places { IfOk result (λ row. length row ≡ length second.now) }
    ensures values { (p : ℕ) → p < length second.now → IfOk result (λ row.
        told row p ≡ ahead (length second.now) (told second.now)
        (λ q. told first.now q && told second.now q) false p) }
{
    let joint = first.both(alloc, second)?;
    along(alloc, second, &joint)
}
