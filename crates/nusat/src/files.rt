ghost use Rattle.std.specs.Prelude.{◌≡◌};
ghost use Rattle.outside.specs.Told.{HasRisen};
ghost use Rattle.nusat.specs.Untold.{IsWithin, untold};

use crate::retry::{read_some, write_some};
use outside::{Failed, FileFault, Files, Text};
use std::alloc::Global;
use std::io::{ErrorKind, Read};
use std::marker::Model;
use std::{fs, rt, str};

/// How many bytes of a file are read at a time.
const PIECE: usize = 16_384;

/// The files of a system. It tells nothing of their contents.
#[derive(Drop)]
pub struct SystemFiles<R: rt::Files + Drop> {
    system: R,
    faults: u64,
}

impl<R: rt::Files + Drop> Model for SystemFiles<R> {
    ghost use Rattle.std.specs.Prelude.{ℕ};

    ghost Value = { ℕ };

    ghost view = { λ s. s.faults };
}

impl<R: rt::Files + Drop> SystemFiles<R> {
    /// The files of this system, of which no call has failed.
    pub fn new(system: R) -> SystemFiles<R>
        ensures { result ≡ 0 }
    {
        SystemFiles { system, faults: 0 }
    }

    /// Counts a fault.
    fn raise(&mut self)
        ensures { HasRisen self.old self.new }
    {
        self.faults = self.faults.saturating_add(1);
    }
}

impl<R: rt::Files + Drop> Files for SystemFiles<R> {
    ghost told = { λ s. untold s };

    fn read_all(&mut self, alloc: Global, name: &Text, limit: usize) -> Result<Text, FileFault> {
        match read_file(&self.system, alloc, name.as_slice(), limit) {
            Ok(bytes) => Ok(bytes),
            Err(FileFault::NoMemory(e)) => Err(FileFault::NoMemory(e)),
            Err(fault) => {
                self.raise();
                Err(fault)
            }
        }
    }

    fn write_all(&mut self, _alloc: Global, name: &Text, bytes: &[u8]) -> Result<(), FileFault> {
        let Ok(()) = write_file(&self.system, name.as_slice(), bytes) else {
            self.raise();
            return Err(FileFault::Failed);
        };
        Ok(())
    }
}

/// Reads a file, and no further than the limit and one byte. A name that is not UTF-8 is a fault.
fn read_file<R: rt::Files>(
    system: &R,
    alloc: Global,
    name: &[u8],
    limit: usize,
) -> Result<Text, FileFault>
    ensures { IsWithin limit result }
{
    let Ok(path) = str::from_utf8(name) else {
        return Err(FileFault::Failed);
    };
    let mut file = match fs::open(system, path) {
        Ok(file) => file,
        Err(e) if e.kind() == ErrorKind::NotFound => return Err(FileFault::NotThere),
        Err(_) => return Err(FileFault::Failed),
    };
    read_up_to(&mut file, alloc, limit)
}

/// Reads to the end, and no further than the limit and one byte.
fn read_up_to<R: Read>(file: &mut R, alloc: Global, limit: usize) -> Result<Text, FileFault>
    ensures { IsWithin limit result }
{
    let mut bytes = Text::new(alloc);
    let mut piece = [0u8; PIECE];
    for _ in 0..u64::MAX {
        let most = (limit - bytes.len()).saturating_add(1).min(PIECE);
        let Ok(count) = read_some(file, &mut piece[..most]) else {
            return Err(FileFault::Failed);
        };
        if count == 0 {
            return Ok(bytes);
        }
        bytes.extend(&piece[..count]).map_err(FileFault::NoMemory)?;
        if bytes.len() > limit {
            return Err(FileFault::TooLong(limit as u64 + 1));
        }
    }
    Err(FileFault::Failed)
}

/// Gives a file these bytes. A name that is not UTF-8 is a fault, and so is a write that takes none
/// of them.
fn write_file<R: rt::Files>(system: &R, name: &[u8], bytes: &[u8]) -> Result<(), Failed> {
    let path = str::from_utf8(name).map_err(|_| Failed)?;
    let mut file = fs::create(system, path).map_err(|_| Failed)?;
    let mut at = 0;
    while at < bytes.len() {
        let (_, rest) = bytes.split_at(at);
        let count = write_some(&mut file, rest).map_err(|_| Failed)?;
        if count == 0 {
            return Err(Failed);
        }
        at += count;
    }
    Ok(())
}
