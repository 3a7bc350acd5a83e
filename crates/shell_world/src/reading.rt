ghost use Rattle.std.specs.Prelude.{◌≡◌};
ghost use Rattle.shell_world.specs.declared.end.End.TheVariants as ends;
ghost use Rattle.shell_world.specs.declared.state.State.{State};
ghost use Rattle.shell_world.specs.Steps.{ReadsWhole, RefusesFile, Stores, TakesLine, WritesWhole, file_refusal};
ghost use Rattle.shell_world.specs.Outsides.{Does};

use crate::{End, Outside, Refusal, State, refuse};
use outside::{FileFault, Line, LineFault, Text};
use std::alloc::Global;

/// Reads a line of at most so many bytes.
///
/// # Errors
///
/// Those of `outside::read_line`.
pub fn read_line<W: Outside>(alloc: Global, world: &mut W, limit: usize) -> Result<Line, LineFault>
    ensures { (state : State) → Does W.told (TakesLine limit result)
        state world.old ends.Went state world.new }
{
    world.line(alloc, limit)
}

/// Reads a file of at most so many bytes.
///
/// # Errors
///
/// Those of `outside::Files::read_all`.
pub fn read_file<W: Outside>(
    alloc: Global,
    world: &mut W,
    limit: usize,
    name: &Text,
) -> Result<Text, FileFault>
    ensures { (state : State) → Does W.told (ReadsWhole limit name.now result)
        state world.old ends.Went state world.new }
{
    world.file(alloc, name, limit)
}

/// Gives a file these bytes.
///
/// # Errors
///
/// Those of `outside::Files::write_all`.
pub fn write_file<W: Outside>(
    alloc: Global,
    world: &mut W,
    name: &Text,
    bytes: &[u8],
) -> Result<(), FileFault>
    ensures { (state : State) → Does W.told (WritesWhole name.now bytes.now result)
        state world.old ends.Went state world.new }
{
    world.store(alloc, name, bytes)
}

/// The refusal of a file that was not read within the limit, or not written.
fn file_refusal(limit: u64, name: Text, fault: FileFault) -> Refusal
    ensures { result ≡ file_refusal limit name fault }
{
    match fault {
        FileFault::NotThere => Refusal::NoFile(name),
        FileFault::TooLong(_) => Refusal::FileTooLong(name, limit),
        FileFault::Failed => Refusal::FileFault(name),
        FileFault::NoMemory(_) => Refusal::NoMemory,
    }
}

/// Refuses a file.
pub fn refuse_file<W: Outside>(
    alloc: Global,
    state: &State,
    world: &mut W,
    limit: usize,
    name: &Text,
    fault: FileFault,
) -> End
    ensures { Does W.told (RefusesFile limit name.now fault)
        state.now world.old result state.now world.new }
{
    let Ok(name) = name.copy(alloc) else {
        return refuse(state, world, Refusal::NoMemory);
    };
    refuse(state, world, file_refusal(limit as u64, name, fault))
}

/// Gives a file these bytes, or refuses it.
pub fn store_file<W: Outside>(
    alloc: Global,
    state: &State,
    world: &mut W,
    name: &Text,
    bytes: &[u8],
) -> End
    ensures { Does W.told (Stores name.now bytes.now)
        state.now world.old result state.now world.new }
{
    match write_file(alloc, world, name, bytes) {
        Ok(()) => End::Went,
        Err(fault) => refuse_file(alloc, state, world, 0, name, fault),
    }
}
