ghost use Rattle.std.specs.Prelude.{ℕ, List};
ghost use Rattle.shell_world.specs.Keeping.{Always, IsCaused, KeepsRefused};
ghost use Rattle.shell_model.specs.declared.log_commands.LogCommand.{LogCommand};
ghost use Rattle.shell_model.specs.declared.model_commands.ModelCommand.{ModelCommand};
ghost use Rattle.shell_model.specs.declared.trace_commands.TraceCommand.{TraceCommand};
ghost use Rattle.shell_model.specs.LogCommands.{DoesLog};
ghost use Rattle.shell_model.specs.ModelCommands.{DoesModel};
ghost use Rattle.shell_model.specs.Refused.{LogMayChange, ModelMayChange, TraceMayChange};
ghost use Rattle.shell_model.specs.TraceCommands.{DoesTrace};

/// A refused command changes nothing that the session keeps, and no file, but what it may.
pub fn refused_command_changes_nothing()
    ensures log { (c : LogCommand) (words : List (List ℕ)) →
        KeepsRefused (LogMayChange c words) (DoesLog c words) }
    ensures model { (c : ModelCommand) (words : List (List ℕ)) →
        KeepsRefused (ModelMayChange c words) (DoesModel c words) }
    ensures trace { (c : TraceCommand) (words : List (List ℕ)) →
        KeepsRefused (TraceMayChange c words) (DoesTrace c words) }
{}

/// A command reads no input, and tells a fault of the files only where their count rises.
pub fn commands_have_causes()
    ensures log { (c : LogCommand) (words : List (List ℕ)) → Always (DoesLog c words) IsCaused }
    ensures model { (c : ModelCommand) (words : List (List ℕ)) →
        Always (DoesModel c words) IsCaused }
    ensures trace { (c : TraceCommand) (words : List (List ℕ)) →
        Always (DoesTrace c words) IsCaused }
{}
