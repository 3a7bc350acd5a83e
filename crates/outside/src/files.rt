ghost use Rattle.std.specs.Prelude.{◌≡◌};
ghost use Rattle.outside.specs.Disk.{ReadsFile, WritesFile};
ghost use Rattle.outside.specs.Told.{Disk};

use crate::Text;
use std::alloc::{AllocError, Global};

/// Why a file was not read or not written.
#[derive(Debug, Drop)]
pub enum FileFault {
    /// No file has this name.
    NotThere,
    /// The file is longer than the limit; the number is one more than the limit.
    TooLong(u64),
    /// The file store failed.
    Failed,
    NoMemory(AllocError),
}

/// Files by name.
pub trait Files {
    /// What each file holds, by its name, if the store tells it, and how often the store has failed.
    ghost told: { Self → Disk };

    /// The bytes of a file. No file is changed.
    ///
    /// # Errors
    ///
    /// `NotThere` where no file has the name, `TooLong` past the limit, `Failed` after a fault of
    /// the store, `NoMemory` where memory is refused.
    fn read_all(&mut self, alloc: Global, name: &Text, limit: usize) -> Result<Text, FileFault>
        ensures reads { ReadsFile limit name.now (told self.old) result (told self.new) }
        ensures same { (told self.new).held ≡ (told self.old).held };

    /// Gives a file these bytes.
    ///
    /// # Errors
    ///
    /// `Failed` after a fault of the store, `NoMemory` where memory is refused. The file has its old
    /// bytes then, or a front of the new ones.
    fn write_all(&mut self, alloc: Global, name: &Text, bytes: &[u8]) -> Result<(), FileFault>
        ensures { WritesFile name.now bytes.now (told self.old) result (told self.new) };
}
