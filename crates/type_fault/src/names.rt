ghost use Rattle.std.specs.Prelude.{◌≡◌};

use smv_tree::{Name, Path};
use std::marker::Model;

/// Names in order.
#[derive(Debug, Drop)]
pub struct Names {
    names: Vec<Name>,
}

impl Model for Names {
    ghost use Rattle.std.specs.Prelude.{ℕ, List};

    ghost Value = { List (List ℕ) };

    ghost view = { λ n. n.names.items };
}

impl Names {
    /// The names of a vector, which is taken over.
    pub fn from_vec(names: Vec<Name>) -> Names
        ensures { result ≡ names.items }
    {
        Names { names }
    }

    /// The names as a slice.
    pub fn as_slice(&self) -> &[Name]
        ensures { result.now ≡ self.now }
    {
        self.names.as_slice()
    }
}

/// Paths in order.
#[derive(Debug, Drop)]
pub struct Paths {
    paths: Vec<Path>,
}

impl Model for Paths {
    ghost use Rattle.std.specs.Prelude.{ℕ, List};

    ghost Value = { List (List (List ℕ)) };

    ghost view = { λ p. p.paths.items };
}

impl Paths {
    /// The paths of a vector, which is taken over.
    pub fn from_vec(paths: Vec<Path>) -> Paths
        ensures { result ≡ paths.items }
    {
        Paths { paths }
    }

    /// The paths as a slice.
    pub fn as_slice(&self) -> &[Path]
        ensures { result.now ≡ self.now }
    {
        self.paths.as_slice()
    }
}
