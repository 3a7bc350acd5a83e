use std::alloc::{AllocError, AllocFailed};

/// Why reading stopped, with the number of tokens that are left.
#[derive(Debug, Drop)]
pub enum Halt {
    /// The first of them cannot stand there.
    Wrong(usize),
    /// The expression is too deep at the token before them.
    Deep(usize),
    /// Memory was refused.
    NoMemory(AllocError),
}

impl From<AllocError> for Halt {
    ghost use Rattle.std.specs.Prelude.{◌≡◌};
    ghost use Rattle.smv_reader.specs.declared.halt.Halt.TheVariants.{NoMemory};

    ghost from_gives = { λ e f. f ≡ NoMemory e };

    fn from(error: AllocError) -> Halt {
        Halt::NoMemory(error)
    }
}

impl<T: Drop> From<AllocFailed<T>> for Halt {
    ghost use Rattle.std.specs.Prelude.{◌≡◌, alloc_error};
    ghost use Rattle.smv_reader.specs.declared.halt.Halt.TheVariants.{NoMemory};

    ghost from_gives = { λ _ f. f ≡ NoMemory alloc_error };

    fn from(failed: AllocFailed<T>) -> Halt {
        Halt::NoMemory(AllocError::from(failed))
    }
}
