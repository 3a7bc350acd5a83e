ghost use Rattle.std.specs.Prelude.{◌≡◌, ◌↔◌, ℕ, List};
ghost use Rattle.smv_tree.specs.Models.{Body};
ghost use Rattle.smv_tree.specs.Trees.{Tree};
ghost use Rattle.smv_tree.specs.declared.value.Value.{Value};
ghost use Rattle.smv_meaning.specs.Values.{Snapshot};
ghost use Rattle.smv_meaning.specs.Runs.{HasValues};
ghost use Rattle.smv_meaning.specs.Definitions.{Definition};
ghost use Rattle.smv_meaning.specs.Cycles.{IsSettled};
ghost use Rattle.smv_meaning.specs.FlatTrees.{Flat, eval};
ghost use Rattle.smv_meaning.specs.FlatLines.{Fits, IsLine, numbers_at};

/// A program that has a line of flat bodies is settled.
pub fn line_settles()
    ensures { (program : List Body) (defs : List Definition) (bodies : List Flat) →
        IsLine program defs bodies → IsSettled program }
{}

/// Over a line, an expression has exactly the values of the flat expression that it fits.
pub fn flat_values_are_those_of_the_program()
    ensures { (program : List Body) (defs : List Definition) (bodies : List Flat) (m n : Snapshot) (up : List (List ℕ))
        (e : Tree) (f : Flat) (vs : List Value) → IsLine program defs bodies →
        Fits program defs up e f →
        HasValues program m n up e vs ↔ (vs ≡ eval (numbers_at program bodies m) (numbers_at program bodies n) f) }
{}
