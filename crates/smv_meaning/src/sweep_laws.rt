ghost use Rattle.std.specs.Prelude.{ℕ, ◌+◌, ◌<◌, Bool};
ghost use Rattle.smv_meaning.specs.Places.{Until};
ghost use Rattle.smv_meaning.specs.SettledTruth.{HoldsBefore, HoldsUpTo};
ghost use Rattle.smv_meaning.specs.Sweeps.{DecidesBelow, around, along, along_both};

/// Two statements on places, of which one is to hold until the other does: what the laws on sweeps
/// are about, whatever they are.
pub trait Sides {
    ghost first: { ℕ → Type 0 };

    ghost second: { ℕ → Type 0 };
}

/// Two sweeps over the places of a lasso decide an until at all of them.
///
/// Source: Latvala, Biere, Heljanko and Junttila, "Simple bounded LTL model checking", FMCAD 2004.
pub fn two_sweeps_decide_until<S: Sides>()
    ensures { (k l : ℕ) (f g : ℕ → Bool) → l < k → DecidesBelow k f S.first → DecidesBelow k g S.second →
        DecidesBelow k (around k l f g) (Until k k l S.first S.second) }
{}

/// One sweep over the places of a path decides what its states settle of an until and of a releases.
pub fn one_sweep_decides_what_is_settled<S: Sides>()
    ensures before { (k : ℕ) (f g : ℕ → Bool) →
        DecidesBelow (k + 1) f S.first → DecidesBelow (k + 1) g S.second →
        DecidesBelow (k + 1) (along k f g) (HoldsBefore k S.first S.second) }
    ensures up_to { (k : ℕ) (f g : ℕ → Bool) →
        DecidesBelow (k + 1) f S.first → DecidesBelow (k + 1) g S.second →
        DecidesBelow (k + 1) (along_both k f g) (HoldsUpTo k S.first S.second) }
{}
