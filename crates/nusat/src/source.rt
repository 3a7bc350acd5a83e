ghost use Rattle.std.specs.Prelude.{◌≡◌, IfOk};

use crate::retry::read_some;
use outside::{Failed, Source};
use std::alloc::Global;
use std::io;
use std::io::{BufReader, Read};
use std::marker::Model;

/// How many bytes are read ahead: lines are read byte by byte.
const AHEAD: usize = 65_536;

/// A stream of the system that input is read from. It tells nothing of its contents.
#[derive(Drop)]
pub struct StreamSource<R: Read + Drop> {
    reader: BufReader<R>,
    faults: u64,
    ended: bool,
}

impl<R: Read + Drop> Model for StreamSource<R> {
    ghost use Rattle.std.specs.Prelude.{ℕ};

    ghost Value = { ℕ };

    ghost view = { λ s. s.faults };
}

impl<R: Read + Drop> StreamSource<R> {
    /// A source over a reader, of which no read has failed.
    ///
    /// # Errors
    ///
    /// Where memory for the bytes that are read ahead is refused.
    pub fn new(alloc: Global, reader: R) -> io::Result<StreamSource<R>>
        ensures { IfOk result (λ s. s ≡ 0) }
    {
        Ok(StreamSource {
            reader: BufReader::with_capacity(alloc, AHEAD, reader)?,
            faults: 0,
            ended: false,
        })
    }

    /// Whether a read has come to the end of the input.
    pub fn has_ended(&self) -> bool {
        self.ended
    }
}

impl<R: Read + Drop> Source for StreamSource<R> {
    ghost use Rattle.std.specs.Prelude.{None};

    ghost told = { λ s. record { left = None; faults = s } };

    fn read(&mut self, buf: &mut [u8]) -> Result<usize, Failed> {
        match read_some(&mut self.reader, buf) {
            Ok(count) => {
                self.ended = count == 0 && !buf.is_empty();
                Ok(count)
            }
            Err(_) => {
                self.faults = self.faults.saturating_add(1);
                Err(Failed)
            }
        }
    }
}
