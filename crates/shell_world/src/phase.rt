ghost use Rattle.std.specs.Prelude.{◌≡◌};
ghost use Rattle.shell_world.specs.Phases.{missing, phase_word, rank};

/// How far a session is with its model. The phases stand in their order: a session that has reached
/// one has reached those before it.
#[derive(Clone, Copy, Debug, PartialEq, Eq)]
pub enum Phase {
    /// Nothing was done.
    Start,
    /// The model was read.
    Read,
    /// It was made flat.
    Flat,
    /// Its variables have bits.
    Encoded,
    /// Its constraints are gates.
    Built,
    /// Questions about it can be asked.
    SetUp,
}

/// The phases in their order.
const PHASES: [Phase; 6] = [
    Phase::Start,
    Phase::Read,
    Phase::Flat,
    Phase::Encoded,
    Phase::Built,
    Phase::SetUp,
];

impl Phase {
    /// The place of the phase in the order.
    fn rank(self) -> u8
        ensures { result ≡ rank self }
    {
        match self {
            Phase::Start => 0,
            Phase::Read => 1,
            Phase::Flat => 2,
            Phase::Encoded => 3,
            Phase::Built => 4,
            Phase::SetUp => 5,
        }
    }

    /// The word of the command that does the phase. A session begins in the first, which no command
    /// does.
    pub fn word(self) -> &'static [u8]
        ensures { result.now ≡ phase_word self }
    {
        match self {
            Phase::Start => b"",
            Phase::Read => b"read_model",
            Phase::Flat => b"flatten_hierarchy",
            Phase::Encoded => b"encode_variables",
            Phase::Built => b"build_boolean_model",
            Phase::SetUp => b"bmc_setup",
        }
    }

    /// The first phase behind this one, up to the one that is needed.
    pub(crate) fn missing(self, needed: Phase) -> Option<Phase>
        ensures { result ≡ missing self needed }
    {
        PHASES.iter().copied().find(|phase| self.rank() < phase.rank()
            && phase.rank() <= needed.rank())
    }
}
