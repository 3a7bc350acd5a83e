ghost use Rattle.std.specs.Prelude.{◌≡◌};
ghost use Rattle.shell_world.specs.Scenes.{own_status};

/// How a command ended.
#[derive(Clone, Copy, Debug, PartialEq, Eq)]
pub enum End {
    /// It went well.
    Went,
    /// It was refused.
    Refused,
    /// It ends the session.
    Quits,
    /// The words of the program are not of its form.
    Misused,
    /// The input failed, or passed a limit.
    InputFailed,
    /// A sink failed.
    Cut,
    /// Memory was refused outside a command.
    NoMemory,
}

impl End {
    /// The status that this end stops every session with.
    pub fn status(self) -> Option<u8>
        ensures { result ≡ own_status self }
    {
        match self {
            End::Went | End::Refused => None,
            End::Quits => Some(0),
            End::Misused => Some(2),
            End::InputFailed => Some(3),
            End::Cut => Some(4),
            End::NoMemory => Some(5),
        }
    }
}

/// Whether a session goes on, or the status that it stops with.
#[derive(Clone, Copy, Debug, PartialEq, Eq)]
pub enum Next {
    Go,
    Stop(u8),
}
