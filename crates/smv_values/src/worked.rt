//! Worked rows: operators on some values, computed from the definitions.
ghost use Rattle.std.specs.Prelude.{◌≡◌, [], ◌∷◌, ℕ, ℤ, pos, negsuc, true, false};
ghost use Rattle.smv_tree.specs.Word.{Word};
ghost use Rattle.smv_tree.specs.declared.value.Value.TheVariants.{Truth, Int, Word as Bits};
ghost use Rattle.smv_tree.specs.declared.expr.Op1.TheVariants as one;
ghost use Rattle.smv_tree.specs.declared.expr.Op2.TheVariants as two;
ghost use Rattle.smv_meaning.specs.Operators.{member, one_value, two_values, widened, word_of};

/// Quotients and remainders truncate, of words modulo two to the width; there is none by zero.
pub fn divisions_truncate()
    ensures quotient { two_values two.Div (Int (pos 7)) (Int (negsuc 1)) ≡ Int (negsuc 2) ∷ [] }
    ensures remainder { two_values two.Mod (Int (negsuc 6)) (Int (pos 5)) ≡ Int (negsuc 1) ∷ [] }
    ensures least { two_values two.Div
        (Bits (word_of true 8 (negsuc 127))) (Bits (word_of true 8 (negsuc 0)))
        ≡ Bits (word_of true 8 (negsuc 127)) ∷ [] }
    ensures none { two_values two.Mod (Int (pos 7)) (Int (pos 0)) ≡ [] }
{}

/// Sums of words begin again at zero, and a signed word keeps its sign where it moves down.
pub fn words_wrap()
    ensures sum { two_values two.Add
        (Bits (word_of false 64 (pos 18446744073709551615))) (Bits (word_of false 64 (pos 1)))
        ≡ Bits (word_of false 64 (pos 0)) ∷ [] }
    ensures down { two_values two.Shr (Bits (word_of true 8 (negsuc 6))) (Int (pos 1))
        ≡ Bits (word_of true 8 (negsuc 3)) ∷ [] }
    ensures far { two_values two.Shl (Bits (word_of false 8 (pos 1))) (Int (pos 9)) ≡ [] }
    ensures cut { widened true 4 (Bits (word_of true 8 (negsuc 127)))
        ≡ Bits (word_of true 4 (negsuc 7)) ∷ [] }
    ensures number { one_value one.ToInt (Bits (word_of true 8 (pos 255))) ≡ Int (negsuc 0) ∷ [] }
{}

/// A value is among others, or not; it has no answer among none.
pub fn members_are_found()
    ensures there { member (Int (pos 2) ∷ []) (Int (pos 1) ∷ Int (pos 2) ∷ []) ≡ Truth true ∷ [] }
    ensures other { member (Int (pos 3) ∷ []) (Int (pos 1) ∷ Int (pos 2) ∷ []) ≡ Truth false ∷ [] }
    ensures none { member (Int (pos 3) ∷ []) [] ≡ [] }
{}
