ghost use Rattle.std.specs.Prelude.{◌≢◌};
ghost use Rattle.shell_world.specs.declared.end.End.TheVariants as ends;
ghost use Rattle.shell_world.specs.declared.state.State.{State};
ghost use Rattle.shell_world.specs.Processes.{EndsSaying, LacksMemory, Refuses, Says, SaysIf};
ghost use Rattle.shell_world.specs.Outsides.{Does};

use crate::{End, Event, Outside, Refusal, State};

/// Tells an event, whatever the session is, and ends as is wanted, or `Cut` where the sink failed.
pub fn tell_event<W: Outside>(world: &mut W, event: &Event, wanted: End) -> End
    requires { wanted ≢ ends.Cut }
    ensures { (state : State) → Does W.told (EndsSaying event.now wanted)
        state world.old result state world.new }
{
    match world.tell(event) {
        Ok(()) => wanted,
        Err(_) => End::Cut,
    }
}

/// Tells an event in this session, with the same ends.
pub fn end_saying<W: Outside>(state: &State, world: &mut W, event: Event, wanted: End) -> End
    requires { wanted ≢ ends.Cut }
    ensures { Does W.told (EndsSaying event wanted) state.now world.old result state.now world.new }
{
    tell_event(world, &event, wanted)
}

/// Tells an event.
pub fn say<W: Outside>(state: &State, world: &mut W, event: Event) -> End
    ensures { Does W.told (Says event) state.now world.old result state.now world.new }
{
    end_saying(state, world, event, End::Went)
}

/// Tells a refusal.
pub fn refuse<W: Outside>(state: &State, world: &mut W, refusal: Refusal) -> End
    ensures { Does W.told (Refuses refusal) state.now world.old result state.now world.new }
{
    end_saying(state, world, Event::Refused(refusal), End::Refused)
}

/// Tells that memory was refused outside a command.
pub fn lack_memory<W: Outside>(state: &State, world: &mut W) -> End
    ensures { Does W.told LacksMemory state.now world.old result state.now world.new }
{
    end_saying(
        state,
        world,
        Event::Refused(Refusal::NoMemory),
        End::NoMemory,
    )
}

/// Tells an event, if it is wanted.
pub fn say_if<W: Outside>(state: &State, world: &mut W, wanted: bool, event: Event) -> End
    ensures { Does W.told (SaysIf wanted event) state.now world.old result state.now world.new }
{
    if wanted {
        say(state, world, event)
    } else {
        End::Went
    }
}
