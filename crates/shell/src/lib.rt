#![tactic(auto)]
//! The session of the shell, and the call that does all that the program does.
//!
//! `run_shell` is the program: its contract says that what was written, read and answered is a
//! session of the program's words (`specs/Sessions.antt`). `Session::step_line` is one line of it.

mod asked;
mod echo;
mod input;
mod laws;
mod lines;
mod no_input;
mod rows;
mod run;
mod script;
mod session;
mod topics;

pub use laws::{
    refused_line_changes_nothing, sound_sessions_end_well, sound_sessions_tell_no_fault,
};
pub use rows::{Command, commands_are_listed};
pub use run::{run_shell, run_sound};
pub use session::Session;
pub use shell_world::{Next, USAGE};
pub use topics::ShellCommand;
