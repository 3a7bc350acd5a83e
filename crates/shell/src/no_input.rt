use outside::{Failed, Source};

/// The input of a single line, which reads none.
#[derive(Drop)]
pub(crate) struct NoInput;

impl Source for NoInput {
    ghost use Rattle.std.specs.Prelude.{[], Some};

    ghost told = { λ _. record { left = Some []; faults = 0 } };

    fn read(&mut self, _buf: &mut [u8]) -> Result<usize, Failed> {
        Ok(0)
    }
}
