ghost use Rattle.std.specs.Prelude.{◌≡◌, ℕ, ◌<◌, [], ◌∷◌, ◌++◌};
ghost use Rattle.std.specs.Prelude.{length, replicate, slice_set, IfOk, OnOk};
ghost use Rattle.ltl_bmc.specs.Circuits.{lit_at};

use gates::Lit;
use std::alloc::{AllocError, Global};
use std::marker::Model;

/// A literal for each place, from 0.
#[derive(Drop)]
pub(crate) struct LitRow {
    lits: Vec<Lit>,
}

impl Model for LitRow {
    ghost use Rattle.std.specs.Prelude.{List};
    ghost use Rattle.gates.specs.Literal.{Literal};

    ghost Value = { List Literal };

    ghost view = { λ r. r.lits.items };
}

impl LitRow {
    /// A row of no place.
    pub(crate) fn new(alloc: Global) -> LitRow
        ensures { result ≡ [] }
    {
        LitRow {
            lits: Vec::new(alloc),
        }
    }

    /// A row with one literal at so many places.
    pub(crate) fn filled(alloc: Global, places: usize, lit: Lit) -> Result<LitRow, AllocError>
        ensures { IfOk result (λ row. row ≡ replicate places lit) }
    {
        Ok(LitRow {
            lits: vec![in alloc; lit; places]?,
        })
    }

    /// How many places it has.
    pub(crate) fn len(&self) -> usize
        ensures { result ≡ length self.now }
    {
        self.lits.len()
    }

    /// The literal at a place.
    pub(crate) fn get(&self, place: usize) -> Lit
        requires { place < length self.now }
        ensures { result ≡ lit_at self.now place }
    {
        self.lits[place]
    }

    /// Puts a literal at a place.
    pub(crate) fn set(&mut self, place: usize, lit: Lit)
        requires { place < length self.old }
        ensures { self.new ≡ slice_set self.old place lit }
    {
        self.lits[place] = lit;
    }

    /// Puts a literal behind the last place.
    pub(crate) fn push(&mut self, lit: Lit) -> Result<(), AllocError>
        ensures { OnOk result (self.new ≡ self.old ++ lit ∷ []) }
    {
        self.lits.push(lit)?;
        Ok(())
    }
}
