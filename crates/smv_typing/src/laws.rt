//! What a reader would ask of the definition.
ghost use Rattle.std.specs.Prelude.{◌≡◌, ◌↔◌, ℕ, List, Ok};
ghost use Rattle.smv_tree.specs.Trees.{Tree};
ghost use Rattle.smv_kinds.specs.declared.typing.Typing.{Typing};
ghost use Rattle.smv_typing.specs.declared.scope.Scope.{Scope};
ghost use Rattle.smv_typing.specs.declared.standing.Standing.{Standing};
ghost use Rattle.smv_typing.specs.Judging.{judged};
ghost use Rattle.smv_typing.specs.Rules.{HasType};

/// An expression is well exactly where it has a type by the rules, and it has one type.
pub fn types_are_by_the_rules()
    ensures rules { (names : List (List ℕ) → Standing) (s : Scope) (e : Tree) (t : Typing) →
        (judged names s e ≡ Ok t) ↔ HasType names s e t }
    ensures unique { (names : List (List ℕ) → Standing) (s : Scope) (e : Tree) (t u : Typing) →
        HasType names s e t → HasType names s e u → t ≡ u }
{}
