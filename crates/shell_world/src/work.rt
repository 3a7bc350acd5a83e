ghost use Rattle.std.specs.Prelude.{◌≡◌};
ghost use Rattle.shell_world.specs.Scenes.{no_work};

use gates::Gates;
use sat_log::Log;
use smv_flat::Flat;
use std::alloc::Global;
use trace_store::Store;

/// What a session has worked out of its model, and drops with it. No command sets it yet.
#[derive(Drop)]
pub struct Work {
    /// The flat model, which `flatten_hierarchy` will set.
    pub flat: Option<Flat>,
    /// Traces with their origin, and the current state: checks, simulations, and traces that are read.
    pub traces: Store,
    /// The inputs and gates of the model and its questions: `bmc_setup`, and each question.
    pub gates: Option<Gates>,
    /// Originals over them, and what was learned: `bmc_setup`, and each question.
    pub log: Option<Log>,
    /// How many frames are encoded: each question.
    pub frames: u32,
    /// The greatest bound that was asked, if one was: each question.
    pub bound: Option<u32>,
    /// How many conflict lines the command gained so far: each question.
    pub gained: u64,
}

impl Work {
    /// Nothing is worked out.
    pub fn none(alloc: Global) -> Work
        ensures { result ≡ no_work }
    {
        Work {
            flat: None,
            traces: Store::new(alloc),
            gates: None,
            log: None,
            frames: 0,
            bound: None,
            gained: 0,
        }
    }
}
