ghost use Rattle.std.specs.Prelude.{◌≡◌, IfOk, OnOk, OnErr};
ghost use Rattle.outside.specs.Told.{HasRisen};

use crate::retry::write_some;
use outside::{Failed, Sink};
use std::alloc::Global;
use std::io;
use std::io::{LineWriter, Write};
use std::marker::Model;

/// A stream of the system that text goes to, line by line. It tells nothing of its contents.
#[derive(Drop)]
pub struct StreamSink<W: Write + Drop> {
    writer: LineWriter<W>,
    /// Whether parts of lines go out at once, as a prompt has to.
    at_once: bool,
    faults: u64,
}

impl<W: Write + Drop> Model for StreamSink<W> {
    ghost use Rattle.std.specs.Prelude.{ℕ};

    ghost Value = { ℕ };

    ghost view = { λ s. s.faults };
}

impl<W: Write + Drop> StreamSink<W> {
    /// A sink over a writer, of which no write has failed. With `at_once` nothing waits for the end
    /// of its line.
    ///
    /// # Errors
    ///
    /// Where memory for a line is refused.
    pub fn new(alloc: Global, writer: W, at_once: bool) -> io::Result<StreamSink<W>>
        ensures { IfOk result (λ s. s ≡ 0) }
    {
        Ok(StreamSink {
            writer: LineWriter::new(alloc, writer)?,
            at_once,
            faults: 0,
        })
    }

    /// Writes what still waits for the end of its line.
    ///
    /// # Errors
    ///
    /// `Failed` after a fault of the writer.
    pub fn flush(&mut self) -> Result<(), Failed>
        ensures ok { OnOk result (self.new ≡ self.old) }
        ensures cause { OnErr result (HasRisen self.old self.new) }
    {
        match self.writer.flush() {
            Ok(()) => Ok(()),
            Err(_) => self.fail(),
        }
    }

    /// Counts a fault.
    fn fail<T>(&mut self) -> Result<T, Failed>
        ensures none { OnOk result ⊥ }
        ensures cause { HasRisen self.old self.new }
    {
        self.faults = self.faults.saturating_add(1);
        Err(Failed)
    }
}

impl<W: Write + Drop> Sink for StreamSink<W> {
    ghost use Rattle.std.specs.Prelude.{None};

    ghost told = { λ s. record { written = None; faults = s } };

    fn write(&mut self, bytes: &[u8]) -> Result<usize, Failed> {
        match write_some(&mut self.writer, bytes) {
            Ok(count) if count > 0 || bytes.is_empty() => {
                if self.at_once {
                    self.flush()?;
                }
                Ok(count)
            }
            _ => self.fail(),
        }
    }
}
