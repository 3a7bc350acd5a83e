ghost use Rattle.std.specs.Prelude.{[], ◌∷◌};
ghost use Rattle.shell_world.specs.Outsides.{ReadsDisk, ReadsInput, Tells, WritesDisk};
ghost use Rattle.shell_world.specs.Scenes.{Told};

use crate::{Event, Side};
use outside::{Failed, FileFault, Files, Line, LineFault, Sink, Source, Text, read_line};
use std::alloc::Global;

/// All that a session sees of the outside: its input, its files, and the two sinks that the texts
/// of its events go to.
pub trait Outside {
    /// What the four objects tell, and which they are.
    ghost told: { Self → Told };

    /// Reads a line of at most so many bytes.
    ///
    /// # Errors
    ///
    /// Those of `outside::read_line`.
    fn line(&mut self, alloc: Global, limit: usize) -> Result<Line, LineFault>
        ensures { ReadsInput limit (told self.old) result (told self.new) };

    /// Reads a file of at most so many bytes.
    ///
    /// # Errors
    ///
    /// Those of `outside::Files::read_all`.
    fn file(&mut self, alloc: Global, name: &Text, limit: usize) -> Result<Text, FileFault>
        ensures { ReadsDisk limit name.now (told self.old) result (told self.new) };

    /// Gives a file these bytes.
    ///
    /// # Errors
    ///
    /// Those of `outside::Files::write_all`.
    fn store(&mut self, alloc: Global, name: &Text, bytes: &[u8]) -> Result<(), FileFault>
        ensures { WritesDisk name.now bytes.now (told self.old) result (told self.new) };

    /// Writes the text of an event, on its side.
    ///
    /// # Errors
    ///
    /// `Failed` after a fault of that sink; a front of the text was written then.
    fn tell(&mut self, event: &Event) -> Result<(), Failed>
        ensures { Tells event.now (told self.old) result (told self.new) };
}

/// The four objects outside, for the time of a session or of a line.
pub struct World<'a, 'b, 'c, 'd, R, F, O, E> {
    /// Where lines come from.
    pub input: &'a mut R,
    pub files: &'b mut F,
    /// Where output goes.
    pub out: &'c mut O,
    /// Where refusals go.
    pub err: &'d mut E,
}

impl<R: Source, F: Files, O: Sink, E: Sink> Outside for World<'_, '_, '_, '_, R, F, O, E> {
    ghost told = { λ w. record {
      input = R.told w.input.now;
      disk = F.told w.files.now;
      out = O.told w.out.now;
      err = E.told w.err.now;
      objects = w.input.ghost_name ∷ w.files.ghost_name ∷ w.out.ghost_name ∷ w.err.ghost_name ∷ [];
    } };

    fn line(&mut self, alloc: Global, limit: usize) -> Result<Line, LineFault> {
        read_line(alloc, self.input, limit)
    }

    fn file(&mut self, alloc: Global, name: &Text, limit: usize) -> Result<Text, FileFault> {
        self.files.read_all(alloc, name, limit)
    }

    fn store(&mut self, alloc: Global, name: &Text, bytes: &[u8]) -> Result<(), FileFault> {
        self.files.write_all(alloc, name, bytes)
    }

    fn tell(&mut self, event: &Event) -> Result<(), Failed> {
        match event.side() {
            Side::Output => event.print(self.out),
            Side::Errors => event.print(self.err),
        }
    }
}
