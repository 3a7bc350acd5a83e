ghost use Rattle.std.specs.Prelude.{◌≡◌, ◌↔◌, ℕ, ◌+◌, ◌<◌, ◌≤◌, List, None, length, IfSome};
ghost use Rattle.smv_tree.specs.Models.{Body, Claim};
ghost use Rattle.smv_tree.specs.declared.value.Value.{Value};
ghost use Rattle.smv_meaning.specs.Runs.{IsRun};
ghost use Rattle.smv_meaning.specs.LassoTruth.{TrueAt};
ghost use Rattle.smv_meaning.specs.Marks.{MarkedRun, no_loop, any_loop, loop_to, loop_back, Partial};
ghost use Rattle.smv_meaning.specs.Repeats.{Repeats};
ghost use Rattle.smv_meaning.specs.Counterexamples.{IsValid, HoldsIn, Refutes, WordBegins};
ghost use Rattle.smv_meaning.specs.PartialTraces.{Extends, partial_of, StatesNoMore};

/// A choice of one loop is valid at the bounds that have it; the others are valid at each bound.
pub fn single_loops_are_valid_from_a_bound_on()
    ensures no_loop { (k : ℕ) → IsValid no_loop k }
    ensures any_loop { (k : ℕ) → IsValid any_loop k }
    ensures loop_to { (l k : ℕ) → (IsValid (loop_to l) k ↔ l < k) }
    ensures loop_back { (m k : ℕ) → (IsValid (loop_back m) k ↔ (0 < m) × (m ≤ k)) }
{}

/// A formula that a path refutes is true on no lasso whose infinite word begins with that path.
pub fn refuted_paths_refute_lassos()
    ensures { (program : List Body) (up : List (List ℕ)) (f : Claim) (m k l : ℕ) (front states : List (List Value)) →
        l < k → length front ≡ m + 1 → WordBegins k l states front →
        Refutes program up f m front None → ¬ TrueAt k l (HoldsIn program up states) f 0 }
{}

/// A run extends the partial trace that states all of it, if its mark is right.
pub fn runs_extend_themselves()
    ensures { (program : List Body) (run : MarkedRun) → IsRun program run.states run.inputs →
        IfSome run.mark (Repeats run.states) → Extends program run (partial_of program run) }
{}

/// A run that extends a partial trace extends each that states no more.
pub fn less_is_extended_too()
    ensures { (program : List Body) (run : MarkedRun) (few many : Partial) →
        StatesNoMore few many → Extends program run many → Extends program run few }
{}
