ghost use Rattle.std.specs.Prelude.{◌≡◌, IfOk};
ghost use Rattle.shell_world.specs.Scenes.{is_set};

use crate::{End, Next, Phase, Refusal, Work};
use bool_replay::BoolModel;
use outside::read_number;
use shell_lang::{Aliases, History, Vars};
use std::alloc::{AllocError, Global};

/// What a session keeps from line to line.
#[derive(Drop)]
pub struct State {
    /// The variables, with their values.
    pub vars: Vars,
    /// The aliases, with their words.
    pub aliases: Aliases,
    /// The lines that were entered.
    pub past: History,
    /// The model, if it was read.
    pub model: Option<BoolModel>,
    /// The last phase that was done with the model.
    pub done: Phase,
    /// What was worked out of the model.
    pub work: Work,
}

/// Whether a variable's text says yes: it is empty, or the number 1.
fn is_set(text: &[u8]) -> bool
    ensures { result ≡ is_set text.now }
{
    match text {
        [] => true,
        _ => match read_number(text) {
            Some(number) => number == 1,
            None => false,
        },
    }
}

impl State {
    ghost use Rattle.shell_world.specs.Phases.{lacks, phase_of, too_early};
    ghost use Rattle.shell_world.specs.Scenes.{after, fresh, goes_along, goes_on, quits};

    /// A session that was not told anything yet.
    ///
    /// # Errors
    ///
    /// `AllocError` where memory is refused.
    pub fn new(alloc: Global) -> Result<State, AllocError>
        ensures { IfOk result (λ state. state ≡ fresh) }
    {
        Ok(State {
            vars: Vars::new(alloc)?,
            aliases: Aliases::new(alloc)?,
            past: History::new(alloc)?,
            model: None,
            done: Phase::Start,
            work: Work::none(alloc),
        })
    }

    // The phase that the session is in.
    fn phase(&self) -> Phase
        ensures { result ≡ phase_of self.now.model self.now.done }
    {
        match &self.model {
            None => Phase::Start,
            Some(_) => self.done,
        }
    }

    // The refusal of a command for which this phase is the first that is missing.
    fn too_early(&self, first: Phase) -> Refusal
        ensures { result ≡ too_early self.now.model first }
    {
        match &self.model {
            None => Refusal::NoModel,
            Some(_) => Refusal::MustComeFirst(first),
        }
    }

    /// What the session lacks for a command that needs a phase, if it has not reached it.
    pub fn lacks(&self, needed: Phase) -> Option<Refusal>
        ensures { result ≡ lacks self.now needed }
    {
        let first = self.phase().missing(needed)?;
        Some(self.too_early(first))
    }

    // Whether a refused command ends the session.
    fn quits(&self) -> bool
        ensures { result ≡ quits self.now }
    {
        match self.vars.on_failure_script_quits() {
            Some(text) => is_set(text.as_slice()),
            None => false,
        }
    }

    /// Whether the session goes on after such an end, or the status that it stops with.
    pub fn after(&self, end: End) -> Next
        ensures { result ≡ after self.now end }
    {
        if matches!(end, End::Refused) && self.quits() {
            return Next::Stop(1);
        }
        match end.status() {
            Some(status) => Next::Stop(status),
            None => Next::Go,
        }
    }

    /// Whether the next command of a line follows.
    pub fn goes_along(&self, end: End) -> bool
        ensures { result ≡ goes_along self.now end }
    {
        matches!(end, End::Went)
    }

    /// Whether the next line of a script follows.
    pub fn goes_on(&self, end: End) -> bool
        ensures { result ≡ goes_on self.now end }
    {
        matches!(self.after(end), Next::Go)
    }
}
