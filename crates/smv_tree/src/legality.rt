ghost use Rattle.std.specs.Prelude.{◌≡◌, ◌↔◌, ◌<◌, ◌^◌, ℕ, Bool, IsTrue, Contains};
ghost use Rattle.smv_tree.specs.Word.{Word as Bits};
ghost use Rattle.smv_tree.specs.declared.value.Value.TheVariants.{Word};
ghost use Rattle.smv_tree.specs.declared.value.Ty.TheVariants.{Word as WordType};
ghost use Rattle.smv_tree.specs.Legal.{IsLegal};

use crate::{Ty, Value};

/// Whether the two values are the same.
fn is_same(a: &Value, b: &Value) -> bool
    ensures { IsTrue result ↔ (a.now ≡ b.now) }
{
    match (a, b) {
        (Value::Truth(x), Value::Truth(y)) => x == y,
        (Value::Int(x), Value::Int(y)) => x == y,
        (Value::Sym(x), Value::Sym(y)) => x.as_slice() == y.as_slice(),
        (Value::Word(x), Value::Word(y)) => x == y,
        _ => false,
    }
}

/// Whether the value is one of these.
fn is_among(values: &[Value], v: &Value) -> bool
    ensures { IsTrue result ↔ Contains values.now v.now }
{
    values.iter().any(|x| is_same(x, v))
}

/// Whether the value is one of the type.
pub fn legal(ty: &Ty, v: &Value) -> bool
    ensures { IsTrue result ↔ IsLegal ty.now v.now }
{
    match (ty, v) {
        (Ty::Bool, Value::Truth(_)) => true,
        (Ty::Range(low, high), Value::Int(n)) => low <= n && n <= high,
        (Ty::Enum(values), _) => is_among(values.as_slice(), v),
        (Ty::Word(signed, width), Value::Word(w)) => w.is_of(*signed, *width),
        _ => false,
    }
}

/// A word that a type lists has no bit beyond the width, so it is one that can be made.
pub fn legal_words_fit()
    ensures fits { (signed : Bool) (width : ℕ) (w : Bits) →
        IsLegal (WordType signed width) (Word w) → w.bits < 2 ^ width }
    ensures like { (signed : Bool) (width : ℕ) (w : Bits) →
        IsLegal (WordType signed width) (Word w) → (w.signed ≡ signed) × (w.width ≡ width) }
{}
