ghost use Rattle.std.specs.Prelude.{◌≡◌};

/// The words of options: a `-` and a letter or a digit. A table holds them as plain data.
#[derive(Clone, Copy, Debug)]
pub enum OptWord {
    /// `-a`
    A,
    /// `-c`
    C,
    /// `-e`
    E,
    /// `-i`
    I,
    /// `-k`
    K,
    /// `-l`
    L,
    /// `-n`
    N,
    /// `-o`
    O,
    /// `-p`
    P,
    /// `-P`
    CapitalP,
    /// `-s`
    S,
    /// `-t`
    T,
    /// `-v`
    V,
    /// `-x`
    X,
    /// `-2`
    Two,
}

impl OptWord {
    ghost use Rattle.cmd_table.specs.Words.{text_of_word};

    /// The word as it is written.
    pub fn text(self) -> &'static [u8]
        ensures { result.now ≡ text_of_word self }
    {
        match self {
            OptWord::A => b"-a",
            OptWord::C => b"-c",
            OptWord::E => b"-e",
            OptWord::I => b"-i",
            OptWord::K => b"-k",
            OptWord::L => b"-l",
            OptWord::N => b"-n",
            OptWord::O => b"-o",
            OptWord::P => b"-p",
            OptWord::CapitalP => b"-P",
            OptWord::S => b"-s",
            OptWord::T => b"-t",
            OptWord::V => b"-v",
            OptWord::X => b"-x",
            OptWord::Two => b"-2",
        }
    }
}

/// What a free word is called where one is missing. A table holds these as plain data too.
#[derive(Clone, Copy, Debug)]
pub enum FreeWord {
    /// There is none.
    Nothing,
    /// `t.s`
    State,
    /// `t[.s[:e]]`
    States,
    /// `file`
    File,
    /// `t`
    Trace,
    /// `name`
    Name,
    /// `n`
    Count,
    /// `words`
    Words,
    /// `command`
    Command,
}

impl FreeWord {
    ghost use Rattle.cmd_table.specs.Words.{text_of_free};

    /// The name as it is written.
    pub fn text(self) -> &'static [u8]
        ensures { result.now ≡ text_of_free self }
    {
        match self {
            FreeWord::Nothing => b"",
            FreeWord::State => b"t.s",
            FreeWord::States => b"t[.s[:e]]",
            FreeWord::File => b"file",
            FreeWord::Trace => b"t",
            FreeWord::Name => b"name",
            FreeWord::Count => b"n",
            FreeWord::Words => b"words",
            FreeWord::Command => b"command",
        }
    }
}
