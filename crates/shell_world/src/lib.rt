#![tactic(auto)]
//! What a session is made of: what it keeps, what it sees of the outside, what happens in it, and
//! what is written of that.
//!
//! Each command of the shell is a process: a relation between the scene before, what happens, its
//! end and the scene after (`specs/Processes.antt`). What happens is events that are told, and
//! questions that a solver is asked, which have no text (`specs/Happenings.antt`). `Does` says that
//! code performed a process, and that each event was written as it came (`specs/Written.antt`). A
//! row says what a command takes and needs, and `read_row` is the one place where that is looked at
//! (`specs/Rows.antt`). The other calls here are the steps that commands are made of, each with a
//! clause `Does`.

mod end;
mod event;
mod log_event;
mod phase;
mod reading;
mod refusal;
mod row;
mod settings_event;
mod shell_event;
mod state;
mod telling;
mod trace_event;
mod words;
mod work;
mod world;

pub use end::{End, Next};
pub use event::{Event, Side, USAGE};
pub use log_event::LogEvent;
pub use phase::Phase;
pub use reading::{read_file, read_line, refuse_file, store_file, write_file};
pub use refusal::Refusal;
pub use row::{Listed, Row, find_word, put_words, read_row};
pub use settings_event::SettingsEvent;
pub use shell_event::ShellEvent;
pub use state::State;
pub use telling::{end_saying, lack_memory, refuse, say, say_if, tell_event};
pub use trace_event::TraceEvent;
pub use words::{copy_of, join};
pub use work::Work;
pub use world::{Outside, World};
