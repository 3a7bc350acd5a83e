ghost use Rattle.std.specs.Prelude.{◌≡◌, ℕ, false, List, Some};
ghost use Rattle.std.specs.List.{list_any};
ghost use Rattle.shell_world.specs.declared.end.End.{End};
ghost use Rattle.shell_world.specs.Happenings.{Happening};
ghost use Rattle.shell_world.specs.Keeping.{tells_fault};
ghost use Rattle.shell_world.specs.declared.end.End.TheVariants as ends;
ghost use Rattle.shell_world.specs.Scenes.{Scene, Told};
ghost use Rattle.shell.specs.declared.rows.Command.{Command};
ghost use Rattle.shell.specs.Closing.{Closes};
ghost use Rattle.shell.specs.Lines.{DoesLine, DoesNamed, Sourcing};
ghost use Rattle.shell.specs.Refused.{ChangesLittle, RefusedInput, RefusedLine};
ghost use Rattle.shell.specs.Sessions.{DoesInput, Session as SessionOf};
ghost use Rattle.shell.specs.Sound.{IsSilent, IsSoundStatus, SinksAreSilent};

use shell_model::{commands_have_causes, refused_command_changes_nothing};
use shell_settings::{refused_setting_changes_nothing, settings_have_causes};

/// A refused command changes nothing that the session keeps, and no file, but that `echo -o` may
/// leave a front of its text in its file, and that what the lines of a script did stays. A line that
/// is refused did what its commands before the refused one did. A line of input is remembered first.
pub fn refused_line_changes_nothing()
    ensures command { (depth : ℕ) (c : Command) (words : List (List ℕ)) (old : Scene)
        (events : List Happening) (new : Scene) →
        DoesNamed (Sourcing depth) c words old events ends.Refused new →
        ChangesLittle depth c words old events new }
    ensures line { (depth : ℕ) (line : List ℕ) (old : Scene) (events : List Happening)
        (new : Scene) → DoesLine depth line old events ends.Refused new →
        RefusedLine depth line old new }
    ensures input { (line : List ℕ) (old : Scene) (events : List Happening) (new : Scene) →
        DoesInput line old events ends.Refused new → RefusedInput line old new }
{
    refused_setting_changes_nothing();
    refused_command_changes_nothing();
}

/// A session over an input and sinks of which none fails ends with 0, 1, 2 or 5, or with 3 where the
/// input has a line, or a number of lines, that passes its limit.
pub fn sound_sessions_end_well()
    ensures { (words : List (List ℕ)) (old new : Told) (status : ℕ) (text : List ℕ) →
        Closes old (SessionOf words) status new → SinksAreSilent old new →
        IsSilent old.input.faults new.input.faults → old.input.left ≡ Some text →
        IsSoundStatus text status }
{
    settings_have_causes();
    commands_have_causes();
}

/// A session over an input and files of which none fails tells no fault of either.
pub fn sound_sessions_tell_no_fault()
    ensures { (words : List (List ℕ)) (old : Scene) (events : List Happening) (end : End)
        (new : Scene) → SessionOf words old events end new →
        IsSilent old.disk.faults new.disk.faults → IsSilent old.input.faults new.input.faults →
        list_any tells_fault events ≡ false }
{
    settings_have_causes();
    commands_have_causes();
}
