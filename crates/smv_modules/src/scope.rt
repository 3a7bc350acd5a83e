//! Names that are declared one after the other.
ghost use Rattle.std.specs.Prelude.{◌≡◌, IfOk};
ghost use Rattle.smv_modules.specs.Scopes.{nothing_seen, see};

use indexmap::IndexSet;
use smv_tree::{Name, Place};
use std::alloc::{AllocError, Global};
use std::marker::Model;
use type_fault::{TypeFault, earlier};

/// Names that were declared, and the first fault of those that were declared again.
#[derive(Drop)]
pub(crate) struct Scope {
    names: IndexSet<Vec<u8>>,
    first: Option<TypeFault>,
}

impl Model for Scope {
    ghost use Rattle.std.specs.Prelude.{map};
    ghost use Rattle.smv_modules.specs.Scopes.{Seen};

    ghost Value = { Seen };

    ghost view = { λ s. record { names = map (λ n. n.items) s.names.keys; first = s.first } };
}

impl Scope {
    /// A scope in which nothing is declared yet.
    pub(crate) fn new(alloc: Global) -> Scope
        ensures { result ≡ nothing_seen }
    {
        Scope {
            names: IndexSet::new(alloc),
            first: None,
        }
    }

    /// The scope after a name is declared.
    pub(crate) fn with(self, alloc: Global, name: &Name, place: Place) -> Result<Scope, AllocError>
        ensures { IfOk result (λ s. s ≡ see self (record { name = name.now; place = place })) }
    {
        let mut names = self.names;
        if names.contains(name.as_slice()) {
            let again = TypeFault::Twice(place, name.copy(alloc)?);
            let first = earlier(self.first, Some(again));
            Ok(Scope { names, first })
        } else {
            names.insert(Vec::from_slice(alloc, name.as_slice())?)?;
            let first = self.first;
            Ok(Scope { names, first })
        }
    }

    /// The first fault of what was declared.
    pub(crate) fn into_first(self) -> Option<TypeFault>
        ensures { result ≡ self.first }
    {
        self.first
    }
}
