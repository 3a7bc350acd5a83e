ghost use Rattle.std.specs.Prelude.{◌≡◌, ℕ, ◌<◌, List, length, slice_set, IfOk};
ghost use Rattle.gates.specs.declared.node.Node.{Node};
ghost use Rattle.gates.specs.Literal.{never};
ghost use Rattle.gates.specs.Nodes.{Belongs};
ghost use Rattle.ltl_bmc.specs.Circuits.{lit_at, lits_at, RowsBelong, StatesEach};

use crate::row::LitRow;
use gates::Lit;
use std::alloc::{AllocError, Global};
use std::marker::Model;

/// A literal for each atom and state. Contracts see a row of literals for each atom.
#[derive(Drop)]
pub struct LitTable {
    rows: Vec<LitRow>,
}

impl Model for LitTable {
    ghost use Rattle.std.specs.Prelude.{List};
    ghost use Rattle.gates.specs.Literal.{Literal};

    ghost Value = { List (List Literal) };

    ghost view = { λ t. t.rows.items };
}

impl LitTable {
    /// A table in which each atom is false in each state.
    pub fn new(alloc: Global, states: u32, atoms: u64) -> Result<LitTable, AllocError>
        ensures atoms { IfOk result (λ t. length t ≡ atoms) }
        ensures states { IfOk result (StatesEach states) }
        ensures none { IfOk result (λ t. (a p : ℕ) → a < atoms → p < states →
            lit_at (lits_at t a) p ≡ never) }
        ensures belong { (nodes : List Node) → 0 < length nodes → IfOk result (RowsBelong nodes) }
    {
        let mut rows = Vec::new(alloc);
        for _atom in 0..atoms {
            rows.push(LitRow::filled(alloc, states as usize, Lit::FALSE)?)?;
        }
        Ok(LitTable { rows })
    }

    /// Says which literal tells whether an atom holds in a state.
    pub fn set(&mut self, state: u32, atom: u64, v: Lit)
        requires atom { atom < length self.old }
        requires state { state < length (lits_at self.old atom) }
        ensures value { self.new ≡
            slice_set self.old atom (slice_set (lits_at self.old atom) state v) }
        ensures atoms { length self.new ≡ length self.old }
        ensures states { (n : ℕ) → StatesEach n self.old → StatesEach n self.new }
        ensures belong { (nodes : List Node) → RowsBelong nodes self.old → Belongs nodes v →
            RowsBelong nodes self.new }
    {
        let row = &mut self.rows[atom as usize];
        row.set(state as usize, v);
    }

    /// The row of an atom.
    pub(crate) fn row(&self, atom: u64) -> &LitRow
        requires { atom < length self.now }
        ensures { result.now ≡ lits_at self.now atom }
    {
        &self.rows[atom as usize]
    }
}
