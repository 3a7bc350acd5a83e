ghost use Rattle.std.specs.Prelude.{◌≡◌, ◌↔◌, ℕ, pos, Bool, true, List, [], ◌∷◌, ◌++◌, length, Contains, IsTrue};
ghost use Rattle.smv_tree.specs.Word.{Word as WordBits};
ghost use Rattle.smv_tree.specs.Trees.{Tree, Trees, truth, number, word, set, next, tree};
ghost use Rattle.smv_tree.specs.Models.{Body};
ghost use Rattle.smv_tree.specs.declared.place.Place.{Place};
ghost use Rattle.smv_tree.specs.declared.value.Value.{Value};
ghost use Rattle.smv_tree.specs.declared.value.Value.TheVariants.{Truth, Int, Word};
ghost use Rattle.smv_meaning.specs.Operators.{same_value, member};
ghost use Rattle.smv_meaning.specs.Values.{Naming, values};
ghost use Rattle.smv_meaning.specs.Runs.{IsRun};

/// A constant has one value, whatever the names stand for.
pub fn constant_is_its_value()
    ensures truth { (now later : Naming) (up : List (List ℕ)) (p : Place) (b : Bool) →
        values now later up (truth p b) ≡ Truth b ∷ [] }
    ensures number { (now later : Naming) (up : List (List ℕ)) (p : Place) (n : ℕ) →
        values now later up (number p n) ≡ Int (pos n) ∷ [] }
    ensures word { (now later : Naming) (up : List (List ℕ)) (p : Place) (w : WordBits) →
        values now later up (word p w) ≡ Word w ∷ [] }
{}

/// Values are found the same exactly where they are equal.
pub fn same_values_are_equal()
    ensures { (v w : Value) → IsTrue (same_value v w) ↔ (v ≡ w) }
{}

/// `in` asks for one value on its left, and is true exactly where that is among those on its right.
pub fn member_is_one_value()
    ensures among { (v w : Value) (ws : List Value) →
        (member (v ∷ []) (w ∷ ws) ≡ Truth true ∷ []) ↔ Contains (w ∷ ws) v }
    ensures one { (v w : Value) (left right : List Value) → member (v ∷ w ∷ left) right ≡ [] }
    ensures some { (left : List Value) → member left [] ≡ [] }
{}

/// A set has the values of its members in their order, each as often as it comes.
pub fn members_keep_their_order()
    ensures { (now later : Naming) (up : List (List ℕ)) (p : Place) (e : Tree) (es : Trees) →
        values now later up (set p (tree e es)) ≡ values now later up e ++ values now later up (set p es) }
{}

/// `next` inside `next` means one `next`.
pub fn next_is_one_step()
    ensures { (now later : Naming) (up : List (List ℕ)) (p q : Place) (e : Tree) →
        values now later up (next p (next q e)) ≡ values now later up (next p e) }
{}

/// A front of a run is a run.
pub fn front_of_run_is_run()
    ensures { (program : List Body) (s : List Value) (front rest : List (List Value)) (inputs more : List (List Value)) →
        length front ≡ length inputs → IsRun program (s ∷ (front ++ rest)) (inputs ++ more) →
        IsRun program (s ∷ front) inputs }
{}
