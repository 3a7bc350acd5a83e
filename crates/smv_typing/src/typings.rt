ghost use Rattle.std.specs.Prelude.{◌≡◌, ◌∷◌, ◌++◌, [], OnOk};

use smv_kinds::Typing;
use std::alloc::{AllocError, Global};
use std::marker::Model;

/// The types of parts, in the order of the text.
#[derive(Debug, Drop)]
pub(crate) struct Typings {
    typings: Vec<Typing>,
}

impl Model for Typings {
    ghost use Rattle.std.specs.Prelude.{List};
    ghost use Rattle.smv_kinds.specs.declared.typing.Typing.{Typing};

    ghost Value = { List Typing };

    ghost view = { λ t. t.typings.items };
}

impl Typings {
    /// None yet.
    pub(crate) fn new(alloc: Global) -> Typings
        ensures { result ≡ [] }
    {
        Typings {
            typings: Vec::new(alloc),
        }
    }

    /// Takes the type of the next part.
    pub(crate) fn push(&mut self, typing: Typing) -> Result<(), AllocError>
        ensures { OnOk result (self.new ≡ self.old ++ typing ∷ []) }
    {
        self.typings.push(typing)?;
        Ok(())
    }

    /// The types as a slice.
    pub(crate) fn as_slice(&self) -> &[Typing]
        ensures { result.now ≡ self.now }
    {
        self.typings.as_slice()
    }
}
