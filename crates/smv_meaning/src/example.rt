ghost use Rattle.std.specs.Prelude.{◌≡◌, Bool, true, false, not, List, [], ◌∷◌, map};
ghost use Rattle.smv_tree.specs.declared.value.Value.TheVariants.{Truth};
ghost use Rattle.smv_tree.specs.Models.{atom, always};
ghost use Rattle.smv_meaning.specs.Instances.{instances, variables};
ghost use Rattle.smv_meaning.specs.Values.{Naming, IsNaming};
ghost use Rattle.smv_meaning.specs.Runs.{IsStep, IsRun, at_state};
ghost use Rattle.smv_meaning.specs.LassoTruth.{TrueAt};
ghost use Rattle.smv_meaning.specs.Counterexamples.{HoldsIn, IsCounterexample};
ghost use Rattle.smv_meaning.specs.Marks.{any_loop};
ghost use Rattle.smv_meaning.specs.Example.{a, b, p, v, off, ring, showing, once_around, is_off, off_again_and_again, until_on};
ghost use Rattle.smv_meaning.specs.ModuleCycles.{IsToldModuleCycle};
ghost use Rattle.smv_meaning.specs.NestedExample.{at_line, m, n, nested};

/// What the definitions say of a ring of two cells: a worked example.
pub fn ring_goes_around()
    ensures instances { map (λ i. i.path) (instances ring) ≡ [] ∷ (a ∷ []) ∷ (b ∷ []) ∷ [] }
    ensures variables { map (λ x. x.path) (variables ring) ≡ (a ∷ v ∷ []) ∷ (b ∷ v ∷ []) ∷ [] }
    ensures define { (x y : Bool) (now : Naming) → IsNaming ring (at_state (showing x y)) now →
        now [] (b ∷ off ∷ []) ≡ Truth (not y) ∷ [] }
    ensures parameter_of_a { (x y : Bool) (now : Naming) → IsNaming ring (at_state (showing x y)) now →
        now (a ∷ []) (p ∷ []) ≡ Truth (not y) ∷ [] }
    ensures parameter_of_b { (x y : Bool) (now : Naming) → IsNaming ring (at_state (showing x y)) now →
        now (b ∷ []) (p ∷ []) ≡ Truth x ∷ [] }
    ensures step { (x y : Bool) → IsStep ring (showing x y) [] (showing (not y) x) }
    ensures run { IsRun ring once_around ([] ∷ [] ∷ [] ∷ [] ∷ []) }
    ensures start { ¬ IsRun ring (showing true false ∷ []) [] }
    ensures lasso { TrueAt 4 0 (HoldsIn ring [] once_around) off_again_and_again 0 }
    ensures path { IsCounterexample ring [] (always (atom is_off)) 2 any_loop until_on }
{}

/// Which cycle is told of modules that contain one another: a worked example.
pub fn nested_modules_are_told()
    ensures { IsToldModuleCycle nested (at_line 3) (m ∷ n ∷ m ∷ []) }
{}
