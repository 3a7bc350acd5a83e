ghost use Rattle.std.specs.Prelude.{ℕ, List};
ghost use Rattle.shell_settings.specs.declared.settings.SettingsCommand.{SettingsCommand};
ghost use Rattle.shell_settings.specs.Refused.{SettingsMayChange};
ghost use Rattle.shell_settings.specs.Settings.{DoesSettings};
ghost use Rattle.shell_world.specs.Keeping.{Always, IsCaused, KeepsRefused};

/// A refused command of the settings changes nothing that the session keeps, and no file, but what
/// it may.
pub fn refused_setting_changes_nothing()
    ensures { (c : SettingsCommand) (words : List (List ℕ)) →
        KeepsRefused (SettingsMayChange c words) (DoesSettings c words) }
{}

/// A command of the settings reads no input, and tells no fault of the outside without its cause.
pub fn settings_have_causes()
    ensures { (c : SettingsCommand) (words : List (List ℕ)) →
        Always (DoesSettings c words) IsCaused }
{}
