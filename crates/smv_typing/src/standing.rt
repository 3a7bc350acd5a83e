//! What names stand for, as far as types are concerned.
ghost use Rattle.std.specs.Prelude.{◌≡◌, List, ℕ};
ghost use Rattle.smv_typing.specs.declared.standing.Standing.{Standing};

use smv_kinds::Typing;
use smv_tree::Path;

/// What a name stands for.
#[derive(Clone, Copy, Debug, PartialEq, Eq)]
pub enum Standing {
    /// Values of this type. The `bool` says whether they are an input's, or those of a define or a
    /// parameter that speaks of an input, itself or through others.
    Typed(Typing, bool),
    /// Nothing, or what is itself at fault: that is told elsewhere, and no more is said here.
    Faulty,
}

/// The names of the instance that an expression stands in.
pub trait Names {
    /// What each path of names stands for.
    ghost told: { Self → List (List ℕ) → Standing };

    /// What a path stands for.
    fn standing(&self, path: &Path) -> Standing
        ensures { result ≡ told self.now path.now };
}
