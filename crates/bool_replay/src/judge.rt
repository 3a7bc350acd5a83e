ghost use Rattle.std.specs.Prelude.{◌≡◌, ◌≤◌, ◌∷◌, [], true, length, map, IfOk};
ghost use Rattle.smv_tree.specs.Models.{Body, bodies};
ghost use Rattle.bool_replay.specs.Plain.{is_plain_body, names_of};
ghost use Rattle.bool_replay.specs.Evaluation.{stop_of};
ghost use Rattle.bool_replay.specs.Stops.{verdict_of};
ghost use Rattle.bool_replay.specs.Verdicts.{Judges};

use crate::model::PlainModel;
use crate::replay::stop_of;
use crate::sections::read;
use crate::states::{States, states_of};
use crate::verdict::Verdict;
use outside::Text;
use std::alloc::{AllocError, Global};

/// What the replay of states comes to.
fn replay(model: &PlainModel, states: &[Vec<bool>]) -> Verdict
    ensures { (b : Body) × (bodies model.now.program ≡ b ∷ []) × (is_plain_body b ≡ true)
        × (result ≡ verdict_of (length states.now) (stop_of (names_of b.parts) b.parts (map (λ s. s.items) states.now))) }
{
    match stop_of(model.items(), &model.names, states) {
        Some((number, cause)) => Verdict::Stops(number as u64, cause),
        None => Verdict::Executed(states.len() as u64),
    }
}

/// What is said of a trace's text.
///
/// # Errors
///
/// `AllocError` where memory is refused.
pub(crate) fn judge(alloc: Global, model: &PlainModel, text: &[u8]) -> Result<Verdict, AllocError>
    requires { length text.now ≤ 4194304 }
    ensures { IfOk result (Judges (bodies model.now.program) text.now) }
{
    let Some(sections) = read(alloc, &model.names, text)? else {
        return Ok(Verdict::NotBuilt);
    };
    match states_of(alloc, &model.names, sections.as_slice())? {
        States::Lacks(line, index) => {
            let name = Text::from_slice(alloc, model.names.get(index))?;
            Ok(Verdict::NoValue(line, name))
        }
        States::All(states) => Ok(replay(model, states.as_slice())),
    }
}
