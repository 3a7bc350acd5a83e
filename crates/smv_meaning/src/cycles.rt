ghost use Rattle.std.specs.Prelude.{◌≡◌, ℕ, List};
ghost use Rattle.smv_tree.specs.declared.place.Place.{Place};
ghost use Rattle.smv_tree.specs.Models.{Body};
ghost use Rattle.smv_meaning.specs.Definitions.{Definition};
ghost use Rattle.smv_meaning.specs.Cycles.{IsSettled, HasDefinitionCycle, IsOrder, IsToldDefinitionCycle};
ghost use Rattle.smv_meaning.specs.ModuleCycles.{HasModuleCycle, IsModuleOrder, IsToldModuleCycle};

/// Where each definition uses only those before it, each path of names comes to an end.
pub fn ordered_definitions_settle()
    ensures { (program : List Body) (order : List Definition) → IsOrder program order → IsSettled program }
{}

/// Where each path of names comes to an end, no definition is defined by itself.
pub fn settled_program_has_no_cycle()
    ensures { (program : List Body) → IsSettled program → ¬ HasDefinitionCycle program }
{}

/// Where no definition is defined by itself, each path of names comes to an end.
pub fn program_without_cycle_settles()
    ensures { (program : List Body) → ¬ HasDefinitionCycle program → IsSettled program }
{}

/// An order and a cycle exclude one another, of definitions and of modules.
pub fn orders_exclude_cycles()
    ensures definitions { (program : List Body) (order : List Definition) →
        IsOrder program order → ¬ HasDefinitionCycle program }
    ensures modules { (program : List Body) (order : List (List ℕ)) →
        IsModuleOrder program order → ¬ HasModuleCycle program }
{}

/// The cycle that is told is a cycle, and at most one is told, at one place.
pub fn told_cycles_are_one()
    ensures definitions { (program : List Body) (p q : Place) (xs ys : List (List (List ℕ))) →
        IsToldDefinitionCycle program p xs → IsToldDefinitionCycle program q ys → (p ≡ q) × (xs ≡ ys) }
    ensures definition { (program : List Body) (p : Place) (xs : List (List (List ℕ))) →
        IsToldDefinitionCycle program p xs → HasDefinitionCycle program }
    ensures modules { (program : List Body) (p q : Place) (xs ys : List (List ℕ)) →
        IsToldModuleCycle program p xs → IsToldModuleCycle program q ys → (p ≡ q) × (xs ≡ ys) }
    ensures module { (program : List Body) (p : Place) (xs : List (List ℕ)) →
        IsToldModuleCycle program p xs → HasModuleCycle program }
{}
