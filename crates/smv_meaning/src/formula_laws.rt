ghost use Rattle.std.specs.Prelude.{◌≡◌, ◌↔◌, ℕ, ◌+◌, ◌-◌, ◌<◌, ◌≤◌, Bool, true, false};
ghost use Rattle.smv_tree.specs.Trees.{Tree};
ghost use Rattle.smv_tree.specs.Models.{Claim, always, both};
ghost use Rattle.smv_tree.specs.declared.formula.FormOp.TheVariants.{Releases};
ghost use Rattle.smv_meaning.specs.Places.{place};
ghost use Rattle.smv_meaning.specs.LassoTruth.{TrueWithin, TrueAt, DecidesAtoms, Decided};
ghost use Rattle.smv_meaning.specs.SettledTruth.{Settled, BeginsSo};
ghost use Rattle.smv_meaning.specs.Duals.{never_not, not_until};

/// At which places the expressions of formulas hold: what the laws on truth are about, whatever it is.
pub trait Atoms {
    ghost holds: { Tree → ℕ → Type 0 };
}

/// Steps along a lasso go straight on up to its last place, from there back to `l`, and come round.
pub fn steps_go_round()
    ensures straight { (k l p : ℕ) → p + 1 < k → place k l p 1 ≡ p + 1 }
    ensures back { (k l : ℕ) → 0 < k → place k l (k - 1) 1 ≡ l }
    ensures within { (k l p n : ℕ) → l < k → p < k → place k l p n < k }
    ensures in_turn { (k l p m n : ℕ) → place k l p (m + n) ≡ place k l (place k l p m) n }
    ensures round { (k l p : ℕ) → l ≤ p → p < k → place k l p (k - l) ≡ p }
{}

/// A greater limit than the length of a lasso changes no formula's truth.
pub fn limits_past_the_length_agree<A: Atoms>()
    ensures { (m k l p : ℕ) (f : Claim) → l < k → p < k → k ≤ m →
        (TrueWithin m k l A.holds f p ↔ TrueAt k l A.holds f p) }
{}

/// Where each expression holds or does not, each formula is true on a lasso or is not.
pub fn truth_is_decided<A: Atoms>()
    ensures { (k l p : ℕ) (f : Claim) → l < k → p < k → DecidesAtoms k A.holds →
        Decided (TrueAt k l A.holds f p) }
{}

/// `G f` says the same as `!F !f`, and `f V g` as `!(!f U !g)`, on lassos and where it is settled.
pub fn operators_are_dual<A: Atoms>()
    ensures always { (k l p : ℕ) (f : Claim) →
        (TrueAt k l A.holds (always f) p ↔ TrueAt k l A.holds (never_not f) p) }
    ensures releases { (k l p : ℕ) (f g : Claim) →
        (TrueAt k l A.holds (both Releases f g) p ↔ TrueAt k l A.holds (not_until f g) p) }
    ensures settled_always { (k p : ℕ) (want : Bool) (f : Claim) →
        (Settled A.holds k (always f) want p ↔ Settled A.holds k (never_not f) want p) }
    ensures settled_releases { (k p : ℕ) (want : Bool) (f g : Claim) →
        (Settled A.holds k (both Releases f g) want p ↔ Settled A.holds k (not_until f g) want p) }
{}

/// What the states of a path settle is so at the first place of each lasso whose infinite word
/// begins with them.
pub fn settled_is_so_on_lassos<S: Atoms, L: Atoms>()
    ensures truth { (m k l : ℕ) (f : Claim) → l < k → BeginsSo m k l S.holds L.holds →
        Settled S.holds m f true 0 → TrueAt k l L.holds f 0 }
    ensures falsity { (m k l : ℕ) (f : Claim) → l < k → BeginsSo m k l S.holds L.holds →
        Settled S.holds m f false 0 → ¬ TrueAt k l L.holds f 0 }
    ensures one_way { (m p : ℕ) (f : Claim) → p ≤ m →
        Settled S.holds m f true p → ¬ Settled S.holds m f false p }
{}
