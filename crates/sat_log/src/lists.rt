ghost use Rattle.std.specs.Prelude.{◌≡◌, ◌++◌, ◌∷◌, [], length, IfOk, OnOk, OnErr};

use crate::SLit;
use smallvec::SmallVec;
use std::alloc::{AllocError, Global};
use std::marker::Model;

/// The literals of a clause. Up to four lie in the value itself.
#[derive(Debug, Drop)]
pub struct SLits {
    items: SmallVec<SLit, 4>,
}

impl Model for SLits {
    ghost use Rattle.std.specs.Prelude.{List};
    ghost use Rattle.sat_log.specs.Literal.{Literal};

    ghost Value = { List Literal };

    ghost view = { λ l. l.items.items };
}

impl SLits {
    /// No literals.
    pub fn new(alloc: Global) -> SLits
        ensures { result ≡ [] }
    {
        SLits {
            items: SmallVec::new(alloc),
        }
    }

    /// The literals of a vector, which is taken over.
    pub fn from_vec(literals: Vec<SLit>) -> SLits
        ensures { result ≡ literals.items }
    {
        SLits {
            items: SmallVec::from_vec(literals),
        }
    }

    /// A copy of these literals.
    ///
    /// # Errors
    ///
    /// `AllocError` where memory is refused.
    pub fn from_slice(alloc: Global, literals: &[SLit]) -> Result<SLits, AllocError>
        ensures { IfOk result (λ l. l ≡ literals.now) }
    {
        Ok(SLits {
            items: SmallVec::from_slice(alloc, literals)?,
        })
    }

    /// The literals as a slice.
    pub fn as_slice(&self) -> &[SLit]
        ensures { result.now ≡ self.now }
    {
        self.items.as_slice()
    }

    /// How many literals there are.
    pub fn len(&self) -> usize
        ensures { result ≡ length self.now }
    {
        self.items.len()
    }

    /// Adds a literal at the end.
    ///
    /// # Errors
    ///
    /// `AllocError` where memory is refused; the list stays as it was.
    pub fn push(&mut self, literal: SLit) -> Result<(), AllocError>
        ensures ok { OnOk result (self.new ≡ self.old ++ literal ∷ []) }
        ensures err { OnErr result (self.new ≡ self.old) }
    {
        self.items.push(literal)?;
        Ok(())
    }

    /// A second list of the same literals.
    ///
    /// # Errors
    ///
    /// `AllocError` where memory is refused.
    pub fn copy(&self, alloc: Global) -> Result<SLits, AllocError>
        ensures { IfOk result (λ l. l ≡ self.now) }
    {
        SLits::from_slice(alloc, self.as_slice())
    }
}

/// Ids of lines of a log, such as the hints of a line: an original has none, so none lie in the
/// value itself.
#[derive(Debug, Drop)]
pub struct Ids {
    items: Vec<u64>,
}

impl Model for Ids {
    ghost use Rattle.std.specs.Prelude.{ℕ, List};

    ghost Value = { List ℕ };

    ghost view = { λ l. l.items.items };
}

impl Ids {
    /// No ids.
    pub fn new(alloc: Global) -> Ids
        ensures { result ≡ [] }
    {
        Ids {
            items: Vec::new(alloc),
        }
    }

    /// The ids of a vector, which is taken over.
    pub fn from_vec(ids: Vec<u64>) -> Ids
        ensures { result ≡ ids.items }
    {
        Ids { items: ids }
    }

    /// A copy of these ids.
    ///
    /// # Errors
    ///
    /// `AllocError` where memory is refused.
    pub fn from_slice(alloc: Global, ids: &[u64]) -> Result<Ids, AllocError>
        ensures { IfOk result (λ l. l ≡ ids.now) }
    {
        Ok(Ids {
            items: Vec::from_slice(alloc, ids)?,
        })
    }

    /// The ids as a slice.
    pub fn as_slice(&self) -> &[u64]
        ensures { result.now ≡ self.now }
    {
        self.items.as_slice()
    }

    /// How many ids there are.
    pub fn len(&self) -> usize
        ensures { result ≡ length self.now }
    {
        self.items.len()
    }

    /// Adds an id at the end.
    ///
    /// # Errors
    ///
    /// `AllocError` where memory is refused; the list stays as it was.
    pub fn push(&mut self, id: u64) -> Result<(), AllocError>
        ensures ok { OnOk result (self.new ≡ self.old ++ id ∷ []) }
        ensures err { OnErr result (self.new ≡ self.old) }
    {
        self.items.push(id)?;
        Ok(())
    }

    /// A second list of the same ids.
    ///
    /// # Errors
    ///
    /// `AllocError` where memory is refused.
    pub fn copy(&self, alloc: Global) -> Result<Ids, AllocError>
        ensures { IfOk result (λ l. l ≡ self.now) }
    {
        Ids::from_slice(alloc, self.as_slice())
    }
}
