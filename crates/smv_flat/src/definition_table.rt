ghost use Rattle.std.specs.Prelude.{◌≡◌, ◌++◌, ◌∷◌, [], map, option_map, OnOk};
ghost use Rattle.smv_flat.specs.Views.{flat_tree};
ghost use Rattle.smv_flat.specs.Fitting.{fitting_eval};
ghost use Rattle.smv_flat.specs.FlatModels.{model_of};
ghost use Rattle.smv_flat.specs.Slots.{slots_of};
ghost use Rattle.smv_flat.specs.Moments.{numbers_with, one_more, fitting_defs, all_defs};
ghost use Rattle.smv_flat.specs.Tables.{row_values, numbers_of};
ghost use Rattle.smv_flat.specs.Answers.{Gives};
ghost use Rattle.smv_flat.specs.Given.{given};

use crate::definition_row::Row;
use crate::evaluation::eval_at;
use crate::state::given_input;
use crate::{EvalFault, Flat, FlatExpr, FlatMoment, Input, State};
use smv_tree::Value;
use std::alloc::{AllocError, Global};
use std::marker::Model;

/// The values of the definitions of a flat model, by number. One table serves many moments in turn,
/// and keeps its memory.
#[derive(Debug, Drop)]
pub struct DefinitionTable {
    rows: Vec<Row>,
}

impl Model for DefinitionTable {
    ghost use Rattle.std.specs.Prelude.{List, map};
    ghost use Rattle.smv_tree.specs.declared.value.Value.{Value as SmvValue};
    ghost use Rattle.smv_flat.specs.Tables.{row_values};

    ghost Value = { List (List SmvValue) };

    ghost view = { λ t. map row_values t.rows.items };
}

/// The values of a body, where those of the definitions before it are known.
fn valued(
    alloc: Global,
    flat: &Flat,
    state: &[Value],
    input: &[Value],
    rows: &[Row],
    body: &FlatExpr,
) -> Result<Row, EvalFault>
    ensures { let now = numbers_with (slots_of (model_of flat.now).vars state.now input.now)
        (map row_values rows.now) in
        Gives row_values result (fitting_eval now now (flat_tree body.now)) }
{
    let moment = FlatMoment {
        flat,
        state,
        input,
        rows,
    };
    match eval_at(alloc, &moment, &moment, body) {
        Ok(list) => match Row::of(alloc, list) {
            Ok(row) => Ok(row),
            Err(fault) => Err(EvalFault::NoMemory(fault)),
        },
        Err(fault) => Err(fault),
    }
}

/// Puts a row behind the others.
fn push_row(rows: &mut Vec<Row>, row: Row) -> Result<(), AllocError>
    ensures { OnOk result (map row_values rows.new.items
        ≡ map row_values rows.old.items ++ row_values row ∷ []) }
{
    rows.push(row)?;
    Ok(())
}

/// Puts the values of a body behind those of the definitions before it.
fn push_value(
    alloc: Global,
    flat: &Flat,
    state: &[Value],
    input: &[Value],
    rows: &mut Vec<Row>,
    body: &FlatExpr,
) -> Result<(), EvalFault>
    ensures { Gives (λ u. map row_values rows.new.items) result
        (one_more (slots_of (model_of flat.now).vars state.now input.now)
        (map row_values rows.old.items) (flat_tree body.now)) }
{
    match valued(alloc, flat, state, input, rows.as_slice(), body) {
        Ok(row) => match push_row(rows, row) {
            Ok(()) => Ok(()),
            Err(fault) => Err(EvalFault::NoMemory(fault)),
        },
        Err(fault) => Err(fault),
    }
}

/// Puts the values of all definitions behind those that are there.
fn push_values(
    alloc: Global,
    flat: &Flat,
    state: &[Value],
    input: &[Value],
    rows: &mut Vec<Row>,
) -> Result<(), EvalFault>
    ensures { Gives (λ u. map row_values rows.new.items) result
        (fitting_defs (slots_of (model_of flat.now).vars state.now input.now)
        (map row_values rows.old.items) (model_of flat.now).defs) }
{
    for def in flat.defs() {
        match push_value(alloc, flat, state, input, rows, &def.body) {
            Ok(()) => {}
            Err(fault) => return Err(fault),
        }
    }
    Ok(())
}

impl DefinitionTable {
    /// A table without rows.
    pub fn new(alloc: Global) -> DefinitionTable
        ensures { result ≡ [] }
    {
        DefinitionTable {
            rows: Vec::new(alloc),
        }
    }

    /// Values all definitions anew, each once.
    pub(crate) fn fill(
        &mut self,
        alloc: Global,
        flat: &Flat,
        state: &[Value],
        input: &[Value],
    ) -> Result<(), EvalFault>
        ensures { Gives (λ u. self.new) result
            (all_defs (model_of flat.now) state.now input.now) }
    {
        self.rows.clear();
        push_values(alloc, flat, state, input, &mut self.rows)
    }

    /// Values all definitions anew, each once, in a state and an input. Single values but symbols
    /// take no memory beyond that of the table.
    ///
    /// # Errors
    ///
    /// `TooLarge`, exactly where the program cannot hold a value that is looked at; `NoMemory`,
    /// where memory was refused.
    pub fn refill(
        &mut self,
        alloc: Global,
        flat: &Flat,
        state: &State,
        input: Option<&Input>,
    ) -> Result<(), EvalFault>
        ensures { Gives (λ u. self.new) result (all_defs (model_of flat.now) state.now
            (given (option_map (λ i. i.now) input.entry))) }
    {
        self.fill(alloc, flat, state.as_slice(), given_input(input))
    }

    /// The moment of a state and an input, for which the table is.
    pub fn moment<'a>(
        &'a self,
        flat: &'a Flat,
        state: &'a State,
        input: Option<&'a Input>,
    ) -> FlatMoment<'a>
        ensures { numbers_of result ≡ numbers_with (slots_of (model_of flat.now).vars state.now
            (given (option_map (λ i. i.now) input.entry))) self.now }
    {
        self.moment_of(flat, state.as_slice(), given_input(input))
    }

    /// The moment of the values of a state and an input.
    pub(crate) fn moment_of<'a>(
        &'a self,
        flat: &'a Flat,
        state: &'a [Value],
        input: &'a [Value],
    ) -> FlatMoment<'a>
        ensures { numbers_of result
            ≡ numbers_with (slots_of (model_of flat.now).vars state.now input.now) self.now }
    {
        FlatMoment {
            flat,
            state,
            input,
            rows: self.rows.as_slice(),
        }
    }
}
