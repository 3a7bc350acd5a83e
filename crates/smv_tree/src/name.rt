ghost use Rattle.std.specs.Prelude.{◌≡◌, ◌≤◌, length, IfOk};

use std::alloc::{AllocError, Global};
use std::marker::Model;

/// A name of the language: 1 to 255 bytes.
#[derive(Debug, Drop)]
pub struct Name {
    bytes: Vec<u8>,
}

impl Model for Name {
    ghost use Rattle.std.specs.Prelude.{ℕ, List, ◌≤◌, length};

    ghost Value = { List ℕ };

    ghost view = { λ n. n.bytes.items };

    ghost invariant = { λ n. (1 ≤ length n.bytes.items) × (length n.bytes.items ≤ 255) };
}

impl Name {
    /// The name of these bytes.
    pub fn from_vec(bytes: Vec<u8>) -> Name
        requires { (1 ≤ length bytes.items) × (length bytes.items ≤ 255) }
        ensures { result ≡ bytes.items }
    {
        Name { bytes }
    }

    /// The bytes.
    pub fn as_slice(&self) -> &[u8]
        ensures bytes { result.now ≡ self.now }
        ensures size { (1 ≤ length self.now) × (length self.now ≤ 255) }
    {
        self.bytes.as_slice()
    }

    /// Another name of the same bytes.
    pub fn copy(&self, alloc: Global) -> Result<Name, AllocError>
        ensures { IfOk result (λ n. n ≡ self.now) }
    {
        let bytes = Vec::from_slice(alloc, self.bytes.as_slice())?;
        Ok(Name { bytes })
    }
}

/// Other names of the same bytes.
fn copies(alloc: Global, names: &[Name]) -> Result<Vec<Name>, AllocError>
    ensures { IfOk result (λ v. v.items ≡ names.now) }
{
    let mut all = Vec::new(alloc);
    for name in names {
        all.push(name.copy(alloc)?)?;
    }
    Ok(all)
}

/// Names after dots: a variable within nested instances, the innermost last.
#[derive(Debug, Drop)]
pub struct Path {
    names: Vec<Name>,
}

impl Model for Path {
    ghost use Rattle.std.specs.Prelude.{ℕ, List};

    ghost Value = { List (List ℕ) };

    ghost view = { λ p. p.names.items };
}

impl Path {
    /// The path of these names.
    pub fn from_vec(names: Vec<Name>) -> Path
        ensures { result ≡ names.items }
    {
        Path { names }
    }

    /// The names.
    pub fn as_slice(&self) -> &[Name]
        ensures { result.now ≡ self.now }
    {
        self.names.as_slice()
    }

    /// Another path of the same names.
    pub fn copy(&self, alloc: Global) -> Result<Path, AllocError>
        ensures { IfOk result (λ p. p ≡ self.now) }
    {
        let names = copies(alloc, self.names.as_slice())?;
        Ok(Path { names })
    }
}
