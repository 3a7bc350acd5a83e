#![tactic(auto, using(crate::proofs::Literals::circuits))]

ghost use Rattle.std.specs.Prelude.{◌≡◌, ℕ, ◌+◌, ◌<◌, ◌≤◌, Bool, List, true};
ghost use Rattle.std.specs.Prelude.{false, not, ◌&&◌, ◌||◌, length, IfOk, OnOk};
ghost use Rattle.gates.specs.Nodes.{Grows, AddsConjunctions, Belongs};
ghost use Rattle.gates.specs.Valuation.{value_of, values_of, IsValuation};
ghost use Rattle.smv_meaning.specs.Sweeps.{ahead};
ghost use Rattle.ltl_form.specs.Rows.{told, turned, ahead_turned, around_turned, IsRow};
ghost use Rattle.ltl_bmc.specs.Circuits.{lit_at, signed_lit, RowBelongs};

use crate::literal::{constant, join, signed, step};
use crate::row::LitRow;
use gates::{Gates, Lit};
use std::alloc::{AllocError, Global};

/// The first places of a row, or their negations. It makes no gates.
pub(crate) fn turn(
    alloc: Global,
    row: &LitRow,
    places: usize,
    negated: bool,
) -> Result<LitRow, AllocError>
    requires { places ≤ length row.now }
    ensures places { IfOk result (λ r. length r ≡ places) }
    ensures literals { (p : ℕ) → p < places → IfOk result (λ r. lit_at r p ≡
        signed_lit negated (lit_at row.now p)) }
{
    let mut all = LitRow::filled(alloc, places, Lit::FALSE)?;
    for p in 0..places {
        all.set(p, signed(row.get(p), negated));
    }
    Ok(all)
}

/// The literal of the next place at each; the one after the last is given. It makes no gates.
pub(crate) fn shift(alloc: Global, row: &LitRow, last: Lit) -> Result<LitRow, AllocError>
    requires { 0 < length row.now }
    ensures places { IfOk result (λ r. length r ≡ length row.now) }
    ensures literals { (p : ℕ) → p + 1 < length row.now → IfOk result (λ r. lit_at r p ≡
        lit_at row.now (p + 1)) }
    ensures last { IfOk result (λ r. (p : ℕ) → p + 1 ≡ length row.now → lit_at r p ≡ last) }
{
    let mut all = LitRow::filled(alloc, row.len(), last)?;
    for p in 1..row.len() {
        all.set(p - 1, row.get(p));
    }
    Ok(all)
}

/// Where both hold, or the dual of it, where one of them does: a gate for each place.
pub(crate) fn join_rows(
    alloc: Global,
    g: &mut Gates,
    first: &LitRow,
    second: &LitRow,
    dual: bool,
) -> Result<LitRow, AllocError>
    requires places { length first.now ≡ length second.now }
    requires first { RowBelongs g.old first.now }
    requires second { RowBelongs g.old second.now }
    ensures places { IfOk result (λ row. length row ≡ length second.now) }
    ensures values { IfOk result (λ row. (values : List Bool) → IsValuation g.new values →
        IsRow (length second.now)
        (λ p. turned dual (turned dual (told (values_of values first.now) p) &&
        turned dual (told (values_of values second.now) p)))
        (values_of values row)) }
    ensures belongs { IfOk result (RowBelongs g.new) }
    ensures grows { Grows g.old g.new }
    ensures conjunctions { AddsConjunctions g.old g.new }
{
    let mut row = LitRow::new(alloc);
    for p in 0..second.len() {
        let joined = join(g, first.get(p), second.get(p), dual)?;
        row.push(joined)?;
    }
    Ok(row)
}

/// Writes from the last place down to `from` whether `second` holds at this place or a later one,
/// and `first` at each place before that; or the dual of it. What comes after the last place is
/// given, and the literal of the first place is the answer. Two gates for each place.
pub(crate) fn sweep(
    g: &mut Gates,
    row: &mut LitRow,
    first: &LitRow,
    second: &LitRow,
    dual: bool,
    after: Lit,
    from: usize,
) -> Result<Lit, AllocError>
    requires first_places { length first.now ≡ length row.old }
    requires second_places { length second.now ≡ length row.old }
    requires from { from ≤ length row.old }
    requires first { RowBelongs g.old first.now }
    requires second { RowBelongs g.old second.now }
    requires after { Belongs g.old after }
    requires row { RowBelongs g.old row.old }
    ensures places { OnOk result (length row.new ≡ length row.old) }
    ensures values { IfOk result (λ _. (values : List Bool) → IsValuation g.new values →
        (p : ℕ) → from ≤ p → p < length row.old →
        told (values_of values row.new) p ≡ ahead_turned dual (length row.old)
        (told (values_of values first.now)) (told (values_of values second.now))
        (value_of values after) p) }
    ensures found { IfOk result (λ l. (values : List Bool) → IsValuation g.new values →
        value_of values l ≡ ahead_turned dual (length row.old) (told (values_of values first.now))
        (told (values_of values second.now)) (value_of values after) from) }
    ensures belongs { OnOk result (RowBelongs g.new row.new) }
    ensures found_belongs { IfOk result (Belongs g.new) }
    ensures grows { Grows g.old g.new }
    ensures conjunctions { AddsConjunctions g.old g.new }
{
    let mut value = after;
    let mut p = row.len();
    while from < p {
        p -= 1;
        value = step(g, first.get(p), second.get(p), value, dual)?;
        row.set(p, value);
    }
    Ok(value)
}

/// What two sweeps around a loop give: the second begins with what the first found at its start.
pub(crate) fn around(
    alloc: Global,
    g: &mut Gates,
    first: &LitRow,
    second: &LitRow,
    dual: bool,
    start: usize,
) -> Result<LitRow, AllocError>
    requires constant { 0 < length g.old }
    requires places { length first.now ≡ length second.now }
    requires start { start < length second.now }
    requires first { RowBelongs g.old first.now }
    requires second { RowBelongs g.old second.now }
    ensures places { IfOk result (λ row. length row ≡ length second.now) }
    ensures values { IfOk result (λ row. (values : List Bool) → IsValuation g.new values →
        IsRow (length second.now)
        (around_turned dual (length second.now) start (told (values_of values first.now))
        (told (values_of values second.now)))
        (values_of values row)) }
    ensures belongs { IfOk result (RowBelongs g.new) }
    ensures grows { Grows g.old g.new }
    ensures conjunctions { AddsConjunctions g.old g.new }
{
    let end = constant(dual);
    let mut row = LitRow::filled(alloc, second.len(), end)?;
    let found = sweep(g, &mut row, first, second, dual, end, start)?;
    sweep(g, &mut row, first, second, dual, found, 0)?;
    Ok(row)
}

/// `around` with all places as the first.
pub(crate) fn around_whole(
    alloc: Global,
    g: &mut Gates,
    second: &LitRow,
    dual: bool,
    start: usize,
) -> Result<LitRow, AllocError>
    requires constant { 0 < length g.old }
    requires start { start < length second.now }
    requires second { RowBelongs g.old second.now }
    ensures places { IfOk result (λ row. length row ≡ length second.now) }
    ensures values { IfOk result (λ row. (values : List Bool) → IsValuation g.new values →
        IsRow (length second.now)
        (around_turned dual (length second.now) start (λ _. not dual)
        (told (values_of values second.now)))
        (values_of values row)) }
    ensures belongs { IfOk result (RowBelongs g.new) }
    ensures grows { Grows g.old g.new }
    ensures conjunctions { AddsConjunctions g.old g.new }
{
    let whole = LitRow::filled(alloc, second.len(), constant(!dual))?;
    around(alloc, g, &whole, second, dual, start)
}

/// What one sweep over a path finds.
pub(crate) fn along(
    alloc: Global,
    g: &mut Gates,
    first: &LitRow,
    second: &LitRow,
) -> Result<LitRow, AllocError>
    requires constant { 0 < length g.old }
    requires places { length first.now ≡ length second.now }
    requires first { RowBelongs g.old first.now }
    requires second { RowBelongs g.old second.now }
    ensures places { IfOk result (λ row. length row ≡ length second.now) }
    ensures values { IfOk result (λ row. (values : List Bool) → IsValuation g.new values →
        IsRow (length second.now)
        (ahead (length second.now) (told (values_of values first.now))
        (told (values_of values second.now)) false)
        (values_of values row)) }
    ensures belongs { IfOk result (RowBelongs g.new) }
    ensures grows { Grows g.old g.new }
    ensures conjunctions { AddsConjunctions g.old g.new }
{
    let mut row = LitRow::filled(alloc, second.len(), Lit::FALSE)?;
    sweep(g, &mut row, first, second, false, constant(false), 0)?;
    Ok(row)
}

/// `along` with all places as the first.
pub(crate) fn along_whole(
    alloc: Global,
    g: &mut Gates,
    second: &LitRow,
) -> Result<LitRow, AllocError>
    requires constant { 0 < length g.old }
    requires second { RowBelongs g.old second.now }
    ensures places { IfOk result (λ row. length row ≡ length second.now) }
    ensures values { IfOk result (λ row. (values : List Bool) → IsValuation g.new values →
        IsRow (length second.now) (ahead (length second.now) (λ _. true)
        (told (values_of values second.now)) false)
        (values_of values row)) }
    ensures belongs { IfOk result (RowBelongs g.new) }
    ensures grows { Grows g.old g.new }
    ensures conjunctions { AddsConjunctions g.old g.new }
{
    let whole = LitRow::filled(alloc, second.len(), constant(true))?;
    along(alloc, g, &whole, second)
}

/// `along` of the second and of both.
pub(crate) fn along_both(
    alloc: Global,
    g: &mut Gates,
    first: &LitRow,
    second: &LitRow,
) -> Result<LitRow, AllocError>
    requires constant { 0 < length g.old }
    requires places { length first.now ≡ length second.now }
    requires first { RowBelongs g.old first.now }
    requires second { RowBelongs g.old second.now }
    ensures places { IfOk result (λ row. length row ≡ length second.now) }
    ensures values { IfOk result (λ row. (values : List Bool) → IsValuation g.new values →
        IsRow (length second.now) (ahead (length second.now) (told (values_of values second.now))
        (λ q. told (values_of values first.now) q && told (values_of values second.now) q) false)
        (values_of values row)) }
    ensures belongs { IfOk result (RowBelongs g.new) }
    ensures grows { Grows g.old g.new }
    ensures conjunctions { AddsConjunctions g.old g.new }
{
    let joint = join_rows(alloc, g, first, second, false)?;
    along(alloc, g, second, &joint)
}
