//! Laws of the values, as the contracts of calls that do nothing.

ghost use Rattle.std.specs.Prelude.{◌≡◌, ◌≢◌, ◌⊎◌, ℕ, List, All, pos};
ghost use Rattle.fraction128.specs.Fraction.{Fraction, IsForm, IsSame, IsAtMost};
ghost use Rattle.fraction128.specs.Fraction.{IsSum, IsDifference, IsProduct, IsQuotient};
ghost use Rattle.fraction128.specs.Laws.{HasOneForm};
ghost use Rattle.fraction128.specs.Scaling.{IsLeastCommon, IsWideOver, Serves};

/// Equal values are the same fraction, so each operation has one answer.
pub fn one_answer()
    ensures same { (a : Fraction) → IsForm a → HasOneForm (IsSame a) }
    ensures sum { (a b : Fraction) → IsForm a → IsForm b → HasOneForm (IsSum a b) }
    ensures difference { (a b : Fraction) → IsForm a → IsForm b → HasOneForm (IsDifference a b) }
    ensures product { (a b : Fraction) → IsForm a → IsForm b → HasOneForm (IsProduct a b) }
    ensures quotient { (a b : Fraction) → IsForm a → b.num ≢ pos 0 → HasOneForm (IsQuotient a b) }
{}

/// Fractions are in one order, by value.
pub fn order_is_total()
    ensures transitive { (a b c : Fraction) → IsForm a → IsForm b → IsForm c
        → IsAtMost a b → IsAtMost b c → IsAtMost a c }
    ensures total { (a b : Fraction) → IsAtMost a b ⊎ IsAtMost b a }
    ensures antisymmetric { (a b : Fraction) → IsForm a → IsForm b
        → IsAtMost a b → IsAtMost b a → a ≡ b }
{}

/// There is one least common denominator. If it, or a number over it, is too wide, no other common denominator fits.
pub fn least_decides()
    ensures exists { (fs : List Fraction) → All IsForm fs → (l : ℕ) × IsLeastCommon fs l }
    ensures one { (fs : List Fraction) (l m : ℕ) → IsLeastCommon fs l → IsLeastCommon fs m → l ≡ m }
    ensures none_serves { (fs : List Fraction) (l m : ℕ) → All IsForm fs
        → IsLeastCommon fs l → IsWideOver l fs → ¬ (Serves m fs) }
{}
