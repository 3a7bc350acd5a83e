ghost use Rattle.std.specs.Prelude.{◌≡◌, ◌+◌, ◌<◌, ◌≤◌, IfOk};
ghost use Rattle.shell_world.specs.Scenes.{fresh};
ghost use Rattle.shell.specs.Closing.{told_of};
ghost use Rattle.shell.specs.Sessions.{DoesInput};
ghost use Rattle.shell.specs.Stepping.{StepsLine, no_input};

use crate::input::do_input;
use crate::no_input::NoInput;
use outside::{Files, Sink, Text};
use shell_world::{Next, State, World};
use std::alloc::{AllocError, Global};
use std::marker::Model;
use std::sync::ledger::Ledger;
use step_count::Steps;

/// A session of the shell: what its lines leave behind.
#[derive(Drop)]
pub struct Session {
    alloc: Global,
    state: State,
}

impl Model for Session {
    ghost use Rattle.std.specs.Coded.{codes};
    ghost use Rattle.shell_world.specs.declared.state.State.{State};
    ghost use Rattle.smv_tree.specs.contracts.expr.Expr as expr;
    ghost use Rattle.smv_tree.specs.contracts.formula.Formula as formula;
    ghost use Rattle.smv_flat.specs.contracts.flat_expr.FlatExpr as flat_expr;
    ghost use Rattle.smv_flat.specs.contracts.flat_formula.FlatFormula as flat_formula;

    ghost Value = { State };

    ghost coded = { Prim.hlevel (
      codes,
      expr.the_row.coded,
      formula.the_row.coded,
      flat_expr.the_row.coded,
      flat_formula.the_row.coded,
    ) };

    ghost view = { λ s. s.state };
}

impl Session {
    /// A session that was not told anything yet.
    ///
    /// # Errors
    ///
    /// `AllocError` where memory is refused.
    pub fn new(alloc: Global) -> Result<Session, AllocError>
        ensures { IfOk result (λ session. session ≡ fresh) }
    {
        Ok(Session {
            alloc,
            state: State::new(alloc)?,
        })
    }

    /// Does what a line of input asks for, and writes what happens as it happens. A line reads no
    /// input.
    pub fn step_line<F: Files, O: Sink, E: Sink, L: Ledger>(
        &mut self,
        line: &Text,
        files: &mut F,
        out: &mut O,
        err: &mut E,
        steps: &mut Steps<L>,
    ) -> Next
        requires { self.old.past.count < 1000000 }
        ensures line { StepsLine
            (told_of no_input (F.told files.old) (O.told out.old) (E.told err.old))
            self.old line.now result self.new
            (told_of no_input (F.told files.new) (O.told out.new) (E.told err.new)) }
        ensures count { self.new.past.count ≤ self.old.past.count + 1 }
        ensures steps { steps.new ≡ steps.old }
    {
        let mut input = NoInput;
        let mut world = World {
            input: &mut input,
            files,
            out,
            err,
        };
        let end = do_input(self.alloc, &mut self.state, &mut world, line);
        let World {
            input: _,
            files: _,
            out: _,
            err: _,
        } = world;
        self.state.after(end)
    }
}
