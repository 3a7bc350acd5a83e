ghost use Rattle.std.specs.Prelude.{◌≡◌, ℕ, ◌<◌, false, length, slice_set, IfOk};
ghost use Rattle.ltl_form.specs.Rows.{told_at, row_at};
ghost use Rattle.ltl_form.specs.Tables.{StatesEach};

use crate::row::Row;
use std::alloc::{AllocError, Global};
use std::marker::Model;

/// Which atoms hold in which states. Contracts see a row of truth values for each atom.
#[derive(Drop)]
pub struct Table {
    rows: Vec<Row>,
}

impl Model for Table {
    ghost use Rattle.std.specs.Prelude.{Bool, List};

    ghost Value = { List (List Bool) };

    ghost view = { λ t. t.rows.items };
}

impl Table {
    /// A table in which no atom holds in any state.
    pub fn new(alloc: Global, states: u32, atoms: u64) -> Result<Table, AllocError>
        ensures atoms { IfOk result (λ t. length t ≡ atoms) }
        ensures states { IfOk result (StatesEach states) }
        ensures none { IfOk result (λ t. (a p : ℕ) → a < atoms → p < states →
            told_at t a p ≡ false) }
    {
        let mut rows = Vec::new(alloc);
        for _atom in 0..atoms {
            rows.push(Row::filled(alloc, states as usize, false)?)?;
        }
        Ok(Table { rows })
    }

    /// Says whether an atom holds in a state.
    pub fn set(&mut self, state: u32, atom: u64, v: bool)
        requires atom { atom < length self.old }
        requires state { state < length (row_at self.old atom) }
        ensures value { self.new ≡
            slice_set self.old atom (slice_set (row_at self.old atom) state v) }
        ensures atoms { length self.new ≡ length self.old }
        ensures states { (n : ℕ) → StatesEach n self.old → StatesEach n self.new }
    {
        let row = &mut self.rows[atom as usize];
        row.set(state as usize, v);
    }

    /// The row of an atom.
    pub(crate) fn row(&self, atom: u64) -> &Row
        requires { atom < length self.now }
        ensures { result.now ≡ row_at self.now atom }
    {
        &self.rows[atom as usize]
    }
}
