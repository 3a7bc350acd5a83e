ghost use Rattle.std.specs.Prelude.{◌↔◌, ℕ, ◌+◌, ◌<◌, ◌≤◌, Bool, true, false, not, List, Decides};
ghost use Rattle.smv_tree.specs.Trees.{Tree};
ghost use Rattle.smv_tree.specs.Models.{Claim};
ghost use Rattle.smv_meaning.specs.LassoTruth.{TrueAt, DecidesAtoms};
ghost use Rattle.smv_meaning.specs.SettledTruth.{Settled};
ghost use Rattle.ltl_form.specs.declared.node.NnfNode.{NnfNode};
ghost use Rattle.ltl_form.specs.Nodes.{Says, root};
ghost use Rattle.ltl_form.specs.Normal.{normal};
ghost use Rattle.ltl_form.specs.Rows.{LassoTells, ShortTells};
ghost use Rattle.ltl_form.specs.Tables.{Covers, DecidesAtomsBelow};

use smv_meaning::Atoms;

/// A normal form is true where the formula is, and that of the negation where it is not, on lassos;
/// and it is settled to be true where the formula is settled to be true, or false.
pub fn normal_forms_say_the_same<A: Atoms>()
    ensures plain { (k l p : ℕ) (f : Claim) → l < k → p < k → DecidesAtoms k A.holds →
        (TrueAt k l A.holds (normal false f) p ↔ TrueAt k l A.holds f p) }
    ensures negated { (k l p : ℕ) (f : Claim) → l < k → p < k → DecidesAtoms k A.holds →
        (TrueAt k l A.holds (normal true f) p ↔ (¬ TrueAt k l A.holds f p)) }
    ensures settled { (k p : ℕ) (b : Bool) (f : Claim) →
        (Settled A.holds k (normal b f) true p ↔ Settled A.holds k f (not b) p) }
{}

/// What rows tell that follow the nodes of a normal form is its truth, wherever its atoms hold.
pub fn rows_tell_truth<A: Atoms>()
    ensures lasso { (names : ℕ → Tree) (nodes : List NnfNode) (table : List (List Bool))
        (k l p : ℕ) (b : Bool) (f : Claim) →
        l < k → p < k → Covers table (k + 1) nodes → DecidesAtomsBelow k table names A.holds →
        Says names nodes (root nodes) f → LassoTells k l table nodes p b →
        Decides b (TrueAt k l A.holds f p) }
    ensures path { (names : ℕ → Tree) (nodes : List NnfNode) (table : List (List Bool)) (k p : ℕ)
        (b : Bool) (f : Claim) →
        p ≤ k → Covers table (k + 1) nodes → DecidesAtomsBelow (k + 1) table names A.holds →
        Says names nodes (root nodes) f → ShortTells k table nodes p b →
        Decides b (Settled A.holds k f true p) }
{}

/// What rows tell that follow the nodes of a normal form is the truth of the formula, or of its
/// negation.
pub fn normal_forms_tell_truth<A: Atoms>()
    ensures plain { (names : ℕ → Tree) (nodes : List NnfNode) (table : List (List Bool))
        (k l p : ℕ) (b : Bool) (f : Claim) →
        l < k → p < k → Covers table (k + 1) nodes → DecidesAtoms k A.holds →
        DecidesAtomsBelow k table names A.holds →
        Says names nodes (root nodes) (normal false f) → LassoTells k l table nodes p b →
        Decides b (TrueAt k l A.holds f p) }
    ensures negated { (names : ℕ → Tree) (nodes : List NnfNode) (table : List (List Bool))
        (k l p : ℕ) (b : Bool) (f : Claim) →
        l < k → p < k → Covers table (k + 1) nodes → DecidesAtoms k A.holds →
        DecidesAtomsBelow k table names A.holds →
        Says names nodes (root nodes) (normal true f) → LassoTells k l table nodes p b →
        Decides b (¬ TrueAt k l A.holds f p) }
    ensures path { (names : ℕ → Tree) (nodes : List NnfNode) (table : List (List Bool)) (k p : ℕ)
        (negated b : Bool) (f : Claim) →
        p ≤ k → Covers table (k + 1) nodes → DecidesAtomsBelow (k + 1) table names A.holds →
        Says names nodes (root nodes) (normal negated f) → ShortTells k table nodes p b →
        Decides b (Settled A.holds k f (not negated) p) }
{}
