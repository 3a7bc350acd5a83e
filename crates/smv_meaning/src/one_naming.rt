ghost use Rattle.std.specs.Prelude.{◌≡◌, ℕ, List};
ghost use Rattle.smv_tree.specs.Models.{Body};
ghost use Rattle.smv_tree.specs.Trees.{Tree};
ghost use Rattle.smv_tree.specs.declared.value.Value.{Value};
ghost use Rattle.smv_meaning.specs.Values.{Naming, Snapshot, IsNaming};
ghost use Rattle.smv_meaning.specs.Runs.{HasValues};
ghost use Rattle.smv_meaning.specs.Cycles.{IsSettled, HasDefinitionCycle};

/// Where each path of names comes to an end, each moment has exactly one naming.
pub fn each_moment_has_one_naming()
    ensures there { (program : List Body) (m : Snapshot) → IsSettled program →
        (now : Naming) × IsNaming program m now }
    ensures one { (program : List Body) (m : Snapshot) (now other : Naming) → IsSettled program →
        IsNaming program m now → IsNaming program m other → now ≡ other }
{}

/// So in a program without a cycle of definitions each moment has exactly one naming.
pub fn program_without_cycle_has_one_naming()
    ensures there { (program : List Body) (m : Snapshot) → ¬ HasDefinitionCycle program →
        (now : Naming) × IsNaming program m now }
    ensures one { (program : List Body) (m : Snapshot) (now other : Naming) →
        ¬ HasDefinitionCycle program →
        IsNaming program m now → IsNaming program m other → now ≡ other }
{}

/// And each expression has exactly one list of values at a moment and the next one.
pub fn each_expression_has_one_list_of_values()
    ensures there { (program : List Body) (m n : Snapshot) (up : List (List ℕ)) (e : Tree) →
        IsSettled program →
        (vs : List Value) × HasValues program m n up e vs }
    ensures one { (program : List Body) (m n : Snapshot) (up : List (List ℕ)) (e : Tree) (vs ws : List Value) →
        IsSettled program →
        HasValues program m n up e vs → HasValues program m n up e ws → vs ≡ ws }
{}
