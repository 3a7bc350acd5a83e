//! Objects that never fail.

ghost use Rattle.std.specs.Prelude.{◌≡◌, ◌≢◌, ◌++◌, ◌∷◌, [], None, Some, Ok, IfOk, MatchOption, OnErr, OnOk, length, min, take};
ghost use Rattle.outside.specs.Memory.{sound, stored};
ghost use Rattle.outside.specs.Disk.{ReadsFile};

use crate::{Failed, FileFault, Files, Sink, Source, Text};
use std::alloc::{AllocError, Global};
use std::marker::Model;

/// An input in memory, of which no read fails.
#[derive(Debug, Drop)]
pub struct SoundSource {
    bytes: Vec<u8>,
    at: usize,
}

impl Model for SoundSource {
    ghost use Rattle.std.specs.Prelude.{◌≤◌, ℕ, List, drop, vec_len};

    ghost Value = { List ℕ };

    ghost view = { λ s. drop s.at s.bytes.items };

    ghost invariant = { λ s. s.at ≤ vec_len s.bytes };
}

impl SoundSource {
    /// A source of these bytes.
    ///
    /// # Errors
    ///
    /// `AllocError` where memory is refused.
    pub fn new(alloc: Global, bytes: &[u8]) -> Result<SoundSource, AllocError>
        ensures { IfOk result (λ left. left ≡ bytes.now) }
    {
        Ok(SoundSource {
            bytes: Vec::from_slice(alloc, bytes)?,
            at: 0,
        })
    }

    /// Gives as many of the bytes to come as the buffer takes, and answers their number.
    #[tactic(auto, using(crate::proofs::MemoryLemmas::given_back))]
    pub(crate) fn give(&mut self, buf: &mut [u8]) -> usize
        ensures most { result ≡ min (length buf.old) (length self.old) }
        ensures given { self.old ≡ take result buf.new ++ self.new }
    {
        let count = buf.len().min(self.bytes.len() - self.at);
        let (_, left) = self.bytes.split_at(self.at);
        let (given, _) = left.split_at(count);
        buf[..count].copy_from_slice(given);
        self.at += count;
        count
    }
}

impl Source for SoundSource {
    ghost told = { λ left. record { left = Some left; faults = 0 } };

    fn read(&mut self, buf: &mut [u8]) -> Result<usize, Failed> {
        Ok(self.give(buf))
    }
}

/// An output that takes all and keeps nothing. It tells nothing, and no write fails.
#[derive(Clone, Copy, Debug, Default)]
pub struct NullSink;

impl Sink for NullSink {
    ghost told = { λ _. record { written = None; faults = 0 } };

    fn write(&mut self, bytes: &[u8]) -> Result<usize, Failed> {
        Ok(bytes.len())
    }
}

/// Files in memory, of which no call fails. None are there at first.
#[derive(Debug, Drop)]
pub struct SoundFiles {
    /// Names and bytes. The first file of a name counts.
    files: Vec<(Text, Text)>,
}

impl Model for SoundFiles {
    ghost use Rattle.std.specs.Prelude.{ℕ, List};

    ghost Value = { List (List ℕ × List ℕ) };

    ghost view = { λ s. s.files.items };
}

/// The bytes of the first file of this name.
#[tactic(auto, using(crate::proofs::MemoryLemmas::stored_step))]
fn find<'a>(files: &'a [(Text, Text)], name: &[u8]) -> Option<&'a Text>
    ensures { MatchOption result (stored files.now name.now ≡ None) (λ bytes. stored files.now name.now ≡ Some bytes.now) }
{
    for (held, bytes) in files {
        if held.as_slice() == name {
            return Some(bytes);
        }
    }
    None
}

impl SoundFiles {
    /// No files.
    ///
    /// # Errors
    ///
    /// None: the answer has room for want of memory, which does not come.
    pub fn new(alloc: Global) -> Result<SoundFiles, AllocError>
        ensures { result ≡ Ok [] }
    {
        Ok(SoundFiles {
            files: Vec::new(alloc),
        })
    }

    /// Puts a file under a name.
    pub(crate) fn put(&mut self, name: &Text, bytes: &[u8]) -> Result<(), AllocError>
        ensures ok { OnOk result (self.new ≡ (name.now, bytes.now) ∷ self.old) }
        ensures err { OnErr result (self.new ≡ self.old) }
    {
        let alloc = *self.files.allocator();
        let file = (name.copy(alloc)?, Text::from_slice(alloc, bytes)?);
        self.files.insert(0, file)?;
        Ok(())
    }

    /// The bytes of the first file of this name, if it is there and not longer than the limit.
    pub(crate) fn get(&self, alloc: Global, name: &Text, limit: usize) -> Result<Text, FileFault>
        ensures reads { ReadsFile limit name.now (sound self.now) result (sound self.now) }
        ensures sound { result ≢ Err FileFault.Failed }
    {
        let Some(bytes) = find(self.files.as_slice(), name.as_slice()) else {
            return Err(FileFault::NotThere);
        };
        if bytes.len() > limit {
            return Err(FileFault::TooLong(limit as u64 + 1));
        }
        bytes.copy(alloc).map_err(FileFault::NoMemory)
    }
}

impl Files for SoundFiles {
    ghost told = { λ files. sound files };

    fn read_all(&mut self, alloc: Global, name: &Text, limit: usize) -> Result<Text, FileFault> {
        self.get(alloc, name, limit)
    }

    fn write_all(&mut self, _alloc: Global, name: &Text, bytes: &[u8]) -> Result<(), FileFault> {
        self.put(name, bytes).map_err(FileFault::NoMemory)
    }
}
