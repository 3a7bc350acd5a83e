#![tactic(auto)]
//! The commands of the model, of traces and of the log, a file each.
//!
//! The rows of a topic's commands stand first in its file, and its function does each of them:
//! `do_model`, `do_trace` and `do_log` perform the processes `DoesModel`, `DoesTrace` and `DoesLog`
//! of `specs`. A refused command leaves the session as it was.

mod laws;
mod log_commands;
mod model_commands;
mod trace_commands;

pub use laws::{commands_have_causes, refused_command_changes_nothing};
pub use log_commands::{LOG_COMMANDS, LogCommand, do_log};
pub use model_commands::{MODEL_COMMANDS, ModelCommand, do_model};
pub use trace_commands::{TRACE_COMMANDS, TraceCommand, do_trace};
