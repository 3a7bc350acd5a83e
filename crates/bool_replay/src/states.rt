ghost use Rattle.std.specs.Prelude.{map, IfOk};
ghost use Rattle.bool_replay.specs.SectionViews.{section_of};
ghost use Rattle.bool_replay.specs.StateViews.{GivesState, GivesStates};

use crate::names::Names;
use crate::sections::{Kept, value_of};
use std::alloc::{AllocError, Global};

/// The states of a trace, by the numbers of the variables.
#[derive(Drop)]
pub(crate) enum States {
    All(Vec<Vec<bool>>),
    /// The line of the first section that lacks a value, and the number of the first such variable.
    Lacks(u64, usize),
}

/// The truth values of a section, or the number of the first name that it lacks.
fn state_of(
    alloc: Global,
    names: &Names,
    section: &Kept,
) -> Result<Result<Vec<bool>, usize>, AllocError>
    ensures { IfOk result (GivesState names.now (section_of section.now)) }
{
    let mut state = Vec::new(alloc);
    for index in 0..names.len() {
        match value_of(section, names.get(index)) {
            Some(value) => state.push(value)?,
            None => return Ok(Err(index)),
        }
    }
    Ok(Ok(state))
}

/// The states of sections, or where the first value lacks.
pub(crate) fn states_of(
    alloc: Global,
    names: &Names,
    sections: &[Kept],
) -> Result<States, AllocError>
    ensures { IfOk result (GivesStates names.now (map section_of sections.now)) }
{
    let mut states = Vec::new(alloc);
    for section in sections {
        match state_of(alloc, names, section)? {
            Ok(state) => states.push(state)?,
            Err(index) => return Ok(States::Lacks(section.line, index)),
        }
    }
    Ok(States::All(states))
}
