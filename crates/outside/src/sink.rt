ghost use Rattle.std.specs.Prelude.{flat_map};
ghost use Rattle.outside.specs.Calls.{Takes, Writes};
ghost use Rattle.outside.specs.Told.{Output};

use crate::Failed;

/// Where text goes.
pub trait Sink {
    /// What was written so far, if the sink tells it, and how often a write has
    /// failed.
    ghost told: { Self → Output };

    /// Writes a front of the bytes, and answers its length. It takes at least one of them, if there
    /// are any.
    ///
    /// # Errors
    ///
    /// `Failed` after a fault of the sink; nothing was written then.
    fn write(&mut self, bytes: &[u8]) -> Result<usize, Failed>
        ensures { Takes bytes.now (told self.old) result (told self.new) };
}

/// Writes all of the bytes.
///
/// # Errors
///
/// `Failed` after a fault of the sink; a front of the bytes was written then.
#[tactic(auto, using(crate::proofs::ToldLemmas::written_more, crate::proofs::ToldLemmas::front_at))]
pub fn put_all<S: Sink>(out: &mut S, bytes: &[u8]) -> Result<(), Failed>
    ensures { Writes bytes.now (S.told out.old) result (S.told out.new) }
{
    let mut at = 0;
    while at < bytes.len() {
        let (_, rest) = bytes.split_at(at);
        at += out.write(rest)?;
    }
    Ok(())
}

/// Writes the parts one after another.
///
/// # Errors
///
/// `Failed` after a fault of the sink; a front of the parts' bytes was written then.
pub fn put_parts<S: Sink>(out: &mut S, parts: &[&[u8]]) -> Result<(), Failed>
    ensures { Writes (flat_map (λ p. p.now) parts.now) (S.told out.old) result (S.told out.new) }
{
    for part in parts {
        put_all(out, part)?;
    }
    Ok(())
}
