ghost use Rattle.std.specs.Prelude.{◌↔◌, IsTrue};
ghost use Rattle.sat_core.specs.Verdicts.{IsBelow};

/// How many conflict lines a search may add to the log.
#[derive(Clone, Copy, Debug, PartialEq, Eq)]
pub enum Budget {
    /// Any number.
    Unset,
    /// Up to this number, from 1.
    Of(u64),
}

impl Budget {
    /// Whether a search that has added so many conflict lines may add another.
    pub(crate) fn allows(self, conflicts: u64) -> bool
        ensures { IsTrue result ↔ IsBelow self conflicts }
    {
        match self {
            Budget::Unset => true,
            Budget::Of(most) => conflicts < most,
        }
    }
}
