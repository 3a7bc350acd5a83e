ghost use Rattle.std.specs.Prelude.{◌≡◌, ◌+◌, ◌<◌, ◌≤◌, Ok, OnOk, OnErr};
ghost use Rattle.std.specs.List.{list_all};
ghost use Rattle.text_lines.specs.Lines.{is_blank};
ghost use Rattle.shell_world.specs.Processes.{Either, LacksMemory};
ghost use Rattle.shell_world.specs.Outsides.{Does};
ghost use Rattle.shell.specs.Sessions.{DoesInput, DoesRecalled, remembered};

use crate::lines::{do_line, refuse_line};
use outside::Text;
use shell_lang::recall;
use shell_world::{End, Outside, State, lack_memory};
use std::alloc::{AllocError, Global};
use text_lines::is_blank;

/// So many scripts may be nested in a line of input.
pub(crate) const DEPTH: u32 = 16;

// Whether a line has nothing but blanks and tabs.
fn has_blanks_alone(line: &[u8]) -> bool
    ensures { result ≡ list_all is_blank line.now }
{
    line.iter().all(|byte| is_blank(*byte))
}

// Remembers a line, unless it is blank.
fn remember(state: &mut State, line: &Text) -> Result<(), AllocError>
    requires { state.old.past.count < 1000000 }
    ensures ok { OnOk result (state.new ≡ remembered line.now state.old) }
    ensures err { OnErr result (state.new ≡ state.old) }
    ensures count { state.new.past.count ≤ state.old.past.count + 1 }
{
    if has_blanks_alone(line.as_slice()) {
        return Ok(());
    }
    state.past.add(line)
}

// A line that was recalled is remembered and done.
fn do_recalled<W: Outside>(alloc: Global, state: &mut State, world: &mut W, line: &Text) -> End
    requires { state.old.past.count < 1000000 }
    ensures does { Does W.told (Either LacksMemory (DoesRecalled (Ok line.now)))
        state.old world.old result state.new world.new }
    ensures count { state.new.past.count ≤ state.old.past.count + 1 }
{
    match remember(state, line) {
        Ok(()) => do_line(alloc, state, world, DEPTH, line),
        Err(_) => lack_memory(state, world),
    }
}

/// Does what a line of input asks for.
pub(crate) fn do_input<W: Outside>(
    alloc: Global,
    state: &mut State,
    world: &mut W,
    line: &Text,
) -> End
    requires { state.old.past.count < 1000000 }
    ensures does { Does W.told (DoesInput line.now) state.old world.old result state.new world.new }
    ensures count { state.new.past.count ≤ state.old.past.count + 1 }
{
    match recall(alloc, line, &state.past) {
        Ok(line) => do_recalled(alloc, state, world, &line),
        Err(fault) => refuse_line(state, world, fault),
    }
}
