//! Objects in memory, of which the calls that are wanted fail.

ghost use Rattle.std.specs.Prelude.{◌≡◌, ◌-◌, ◌∷◌, ◌||◌, ◌↔◌, [], Err, IfOk, IsTrue, OnErr, OnOk, is_err, length, min};
ghost use Rattle.outside.specs.Disk.{ReadsFile, WritesFile};
ghost use Rattle.outside.specs.Memory.{counted, fails_next, is_full, told_files, told_input, told_output};
ghost use Rattle.outside.specs.Calls.{Fills, Takes};

use crate::calls::Calls;
use crate::{Failed, FileFault, Files, Sink, SoundFiles, SoundSource, Source, Text};
use std::alloc::{AllocError, Global};
use std::marker::Model;

/// An input in memory.
#[derive(Debug, Drop)]
pub struct MemSource {
    bytes: SoundSource,
    calls: Calls,
}

impl Model for MemSource {
    ghost use Rattle.outside.specs.Memory.{HeldInput};

    ghost Value = { HeldInput };

    ghost view = { λ s. record { left = s.bytes; calls = s.calls } };
}

impl MemSource {
    /// A source of these bytes. `fails` has the numbers of the reads that are to fail, from 1.
    ///
    /// # Errors
    ///
    /// `AllocError` where memory is refused.
    pub fn new(alloc: Global, bytes: &[u8], fails: &[u64]) -> Result<MemSource, AllocError>
        ensures { IfOk result (λ s. s
            ≡ record { left = bytes.now; calls = record { made = 0; failing = fails.now; faults = 0 } }) }
    {
        Ok(MemSource {
            bytes: SoundSource::new(alloc, bytes)?,
            calls: Calls::new(alloc, fails)?,
        })
    }
}

impl Source for MemSource {
    ghost told = { told_input };

    fn read(&mut self, buf: &mut [u8]) -> Result<usize, Failed>
        ensures fills { Fills buf.old buf.new (told_input self.old) result (told_input self.new) }
        ensures fails { is_err result ≡ fails_next self.old.calls }
        ensures calls { self.new.calls ≡ counted (is_err result) self.old.calls }
        ensures most { IfOk result (λ n. n ≡ min (length buf.old) (length self.old.left)) }
    {
        self.calls.make()?;
        Ok(self.bytes.give(buf))
    }
}

/// An output in memory, which takes so many bytes and no more.
#[derive(Debug, Drop)]
pub struct MemSink {
    bytes: Vec<u8>,
    room: usize,
    calls: Calls,
}

impl Model for MemSink {
    ghost use Rattle.std.specs.Prelude.{◌+◌, ◌≤◌, vec_capacity, vec_len};
    ghost use Rattle.outside.specs.Memory.{HeldOutput};

    ghost Value = { HeldOutput };

    ghost view = { λ s. record { written = s.bytes.items; room = s.room; calls = s.calls } };

    ghost invariant = { λ s. vec_len s.bytes + s.room ≤ vec_capacity s.bytes };
}

impl MemSink {
    /// A sink with room for `capacity` bytes. `fails` has the numbers of the writes that are to
    /// fail, from 1.
    ///
    /// # Errors
    ///
    /// `AllocError` where memory is refused.
    pub fn new(alloc: Global, capacity: usize, fails: &[u64]) -> Result<MemSink, AllocError>
        ensures { IfOk result (λ s. s ≡ record {
          written = [];
          room = capacity;
          calls = record { made = 0; failing = fails.now; faults = 0 };
        }) }
    {
        Ok(MemSink {
            bytes: Vec::with_capacity(alloc, capacity)?,
            room: capacity,
            calls: Calls::new(alloc, fails)?,
        })
    }

    /// What was written.
    pub fn bytes(&self) -> &[u8]
        ensures { result.now ≡ self.now.written }
    {
        self.bytes.as_slice()
    }
}

impl Sink for MemSink {
    ghost told = { told_output };

    fn write(&mut self, bytes: &[u8]) -> Result<usize, Failed>
        ensures takes { Takes bytes.now (told_output self.old) result (told_output self.new) }
        ensures fails { is_err result ≡ (fails_next self.old.calls || is_full self.old bytes.now) }
        ensures calls { self.new.calls ≡ counted (is_err result) self.old.calls }
        ensures most { IfOk result (λ n. n ≡ min (length bytes.now) self.old.room) }
        ensures room { IfOk result (λ n. self.new.room ≡ self.old.room - n) }
        ensures kept { OnErr result (self.new.room ≡ self.old.room) }
    {
        self.calls.make()?;
        if self.room == 0 && !bytes.is_empty() {
            self.calls.fail();
            return Err(Failed);
        }
        let count = bytes.len().min(self.room);
        self.bytes.extend_from_slice(&bytes[..count]).unwrap();
        self.room -= count;
        Ok(count)
    }
}

/// Files in memory.
#[derive(Debug, Drop)]
pub struct MemFiles {
    files: SoundFiles,
    calls: Calls,
}

impl Model for MemFiles {
    ghost use Rattle.outside.specs.Memory.{HeldFiles};

    ghost Value = { HeldFiles };

    ghost view = { λ s. record { files = s.files; calls = s.calls } };
}

impl MemFiles {
    /// No files. `fails` has the numbers of the calls that are to fail, from 1.
    ///
    /// # Errors
    ///
    /// `AllocError` where memory is refused.
    pub fn new(alloc: Global, fails: &[u64]) -> Result<MemFiles, AllocError>
        ensures { IfOk result (λ s. s
            ≡ record { files = []; calls = record { made = 0; failing = fails.now; faults = 0 } }) }
    {
        Ok(MemFiles {
            files: SoundFiles::new(alloc)?,
            calls: Calls::new(alloc, fails)?,
        })
    }

    /// Puts a file under a name.
    ///
    /// # Errors
    ///
    /// `AllocError` where memory is refused; the files stay as they were.
    pub fn put(&mut self, name: &Text, bytes: &[u8]) -> Result<(), AllocError>
        ensures ok { OnOk result (self.new ≡ record self.old { files = (name.now, bytes.now) ∷ self.old.files }) }
        ensures err { OnErr result (self.new ≡ self.old) }
    {
        self.files.put(name, bytes)
    }
}

impl Files for MemFiles {
    ghost told = { told_files };

    fn read_all(&mut self, alloc: Global, name: &Text, limit: usize) -> Result<Text, FileFault>
        ensures reads { ReadsFile limit name.now (told_files self.old) result (told_files self.new) }
        ensures same { self.new.files ≡ self.old.files }
        ensures fails { IsTrue (fails_next self.old.calls) ↔ (result ≡ Err FileFault.Failed) }
        ensures calls { self.new.calls ≡ counted (fails_next self.old.calls) self.old.calls }
    {
        let Ok(()) = self.calls.make() else {
            return Err(FileFault::Failed);
        };
        self.files.get(alloc, name, limit)
    }

    fn write_all(&mut self, _alloc: Global, name: &Text, bytes: &[u8]) -> Result<(), FileFault>
        ensures writes { WritesFile name.now bytes.now (told_files self.old) result (told_files self.new) }
        ensures fails { IsTrue (fails_next self.old.calls) ↔ (result ≡ Err FileFault.Failed) }
        ensures calls { self.new.calls ≡ counted (fails_next self.old.calls) self.old.calls }
    {
        let Ok(()) = self.calls.make() else {
            return Err(FileFault::Failed);
        };
        self.files.put(name, bytes).map_err(FileFault::NoMemory)
    }
}
