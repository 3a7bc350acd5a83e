ghost use Rattle.std.specs.Prelude.{◌≤◌, length, IfOk};
ghost use Rattle.smv_tree.specs.Models.{bodies};
ghost use Rattle.bool_replay.specs.Verdicts.{Judges, ModelOf};

use crate::judge::judge;
use crate::model::PlainModel;
use crate::verdict::Verdict;
use smv_parse::{ParseFault, is_first_form, parse_model};
use std::alloc::{AllocError, Global};
use std::marker::Model;

/// Why a text is no model that can be run.
#[derive(Debug, Drop)]
pub enum ModelFault {
    /// The text has a fault.
    Text(ParseFault),
    /// The text spells a program that cannot be run so far.
    NotBuilt,
    /// Memory was refused.
    NoMemory,
}

/// A model of one boolean module, on which traces are replayed.
#[derive(Drop)]
pub struct BoolModel {
    model: PlainModel,
}

impl Model for BoolModel {
    ghost use Rattle.std.specs.Coded.{codes};
    ghost use Rattle.smv_tree.specs.declared.program.Program.{Program};
    ghost use Rattle.smv_tree.specs.contracts.expr.Expr as expr;
    ghost use Rattle.smv_tree.specs.contracts.formula.Formula as formula;

    ghost Value = { Program };

    ghost coded = { Prim.hlevel (codes, expr.the_row.coded, formula.the_row.coded) };

    ghost view = { λ m. m.model.program };
}

impl BoolModel {
    /// The model of a text of at most 4,194,304 bytes.
    ///
    /// # Errors
    ///
    /// The text's first fault, `NotBuilt` where it spells no boolean module, or `NoMemory`.
    pub fn read(alloc: Global, text: &[u8]) -> Result<BoolModel, ModelFault>
        requires { length text.now ≤ 4194304 }
        ensures { ModelOf text.now result }
    {
        let program = match parse_model(alloc, text) {
            Ok(program) => program,
            Err(ParseFault::NoMemory(_)) => return Err(ModelFault::NoMemory),
            Err(fault) => return Err(ModelFault::Text(fault)),
        };
        match is_first_form(alloc, text) {
            Ok(true) => {}
            Ok(false) => return Err(ModelFault::NotBuilt),
            Err(AllocError) => return Err(ModelFault::NoMemory),
        }
        match PlainModel::of(alloc, program) {
            Ok(Some(model)) => Ok(BoolModel { model }),
            Ok(None) => Err(ModelFault::NotBuilt),
            Err(AllocError) => Err(ModelFault::NoMemory),
        }
    }

    /// What is said of the text of a trace, of at most 4,194,304 bytes.
    ///
    /// # Errors
    ///
    /// `AllocError` where memory is refused.
    pub fn judge(&self, alloc: Global, text: &[u8]) -> Result<Verdict, AllocError>
        requires { length text.now ≤ 4194304 }
        ensures { IfOk result (Judges (bodies self.now) text.now) }
    {
        judge(alloc, &self.model, text)
    }
}
