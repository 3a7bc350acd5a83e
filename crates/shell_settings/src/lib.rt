#![tactic(auto)]
//! The commands of the shell that show and change settings.
//!
//! The rows of the commands stand first in `settings.rt`, and `do_settings` does each of them: its
//! one clause `Does` cites the process that `specs/` defines. What changes settings leaves the
//! remembered lines as they were, and a refused command changes nothing.

mod laws;
mod past;
mod settings;

pub use laws::{refused_setting_changes_nothing, settings_have_causes};
pub use settings::{SETTINGS_COMMANDS, SettingsCommand, do_settings};
