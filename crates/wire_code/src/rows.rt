//! Values of single formulas, and what equations say together, by computation.

ghost use Rattle.std.specs.Prelude.{◌≡◌, ◌≢◌, ℤ, ℕ, pos, negsuc, [], ◌∷◌};
ghost use Rattle.wire_code.specs.Formulas.{formula_value, number_at, Satisfies, IsOrdered};
ghost use Rattle.wire_code.specs.SmallEquations.{is, small_frame, four_wires, value_of};

use crate::formula::Formula;
use java_values::{Kind, Op1, Op2};

/// A number is itself, and a place of the frame isn't a wire.
pub fn numbers_and_places()
    ensures number { value_of (Formula.Const (negsuc 2)) ≡ negsuc 2 }
    ensures place { value_of (Formula.Get 1) ≡ pos 9 }
    ensures no_wire { value_of (Formula.Get 1) ≢ four_wires 1 }
    ensures no_number { value_of (Formula.Get 1) ≢ pos 1 }
{}

/// A number other than 0 counts as true, and the answer is 0 or 1.
pub fn truth_of_numbers()
    ensures both { value_of (Formula.And 2 3) ≡ pos 1 }
    ensures no_bits { value_of (Formula.And 2 3) ≢ pos 0 }
    ensures negative { value_of (Formula.And 0 2) ≡ pos 1 }
    ensures one { value_of (Formula.And 1 2) ≡ pos 0 }
    ensures either { value_of (Formula.Or 1 2) ≡ pos 1 }
    ensures no_operand { value_of (Formula.Or 1 2) ≢ pos 4 }
    ensures neither { value_of (Formula.Or 1 1) ≡ pos 0 }
    ensures no { value_of (Formula.Not 2) ≡ pos 0 }
    ensures yes { value_of (Formula.Not 1) ≡ pos 1 }
    ensures no_complement { value_of (Formula.Not 1) ≢ negsuc 0 }
{}

/// An operator computes in the kind to which its operand is promoted: 4 is negated, and `-128` of `byte` to 128.
pub fn operators_on_one_wire()
    ensures minus { value_of (Formula.Apply1 Op1.Minus Kind.Int 2) ≡ negsuc 3 }
    ensures bits { value_of (Formula.Apply1 Op1.BitNot Kind.Int 2) ≡ negsuc 4 }
    ensures kept { value_of (Formula.Apply1 Op1.Plus Kind.Int 2) ≢ negsuc 3 }
    ensures promoted { (f : ℕ → ℤ)
        → formula_value f (number_at (negsuc 127 ∷ [])) (Formula.Apply1 Op1.Minus Kind.Byte 0)
        ≡ pos 128 }
{}

/// The first wire is the left operand, and the first kind is its kind: an `int` is shifted by the low 5 bits of the
/// distance, whatever the kind of the distance.
pub fn operators_on_two_wires()
    ensures left { value_of (Formula.Apply2 Op2.Sub Kind.Int Kind.Int 2 3) ≡ pos 2 }
    ensures order { value_of (Formula.Apply2 Op2.Sub Kind.Int Kind.Int 2 3) ≢ negsuc 1 }
    ensures rounded { value_of (Formula.Apply2 Op2.Div Kind.Int Kind.Int 0 3) ≡ pos 0 }
    ensures not_down { value_of (Formula.Apply2 Op2.Div Kind.Int Kind.Int 0 3) ≢ negsuc 0 }
    ensures masked { (f : ℕ → ℤ)
        → formula_value f (number_at (pos 1 ∷ pos 33 ∷ []))
        (Formula.Apply2 Op2.Shl Kind.Int Kind.Long 0 1) ≡ pos 2 }
    ensures no_long { (f : ℕ → ℤ)
        → formula_value f (number_at (pos 1 ∷ pos 33 ∷ []))
        (Formula.Apply2 Op2.Shl Kind.Int Kind.Long 0 1) ≢ pos 8589934592 }
{}

/// A cast gives the second kind.
pub fn casts_of_wires()
    ensures low_bits { (f : ℕ → ℤ)
        → formula_value f (number_at (pos 200 ∷ [])) (Formula.Cast Kind.Int Kind.Byte 0)
        ≡ negsuc 55 }
    ensures second_kind { (f : ℕ → ℤ)
        → formula_value f (number_at (pos 200 ∷ [])) (Formula.Cast Kind.Int Kind.Byte 0)
        ≢ pos 200 }
    ensures no_sign { value_of (Formula.Cast Kind.Int Kind.Char 0) ≡ pos 65535 }
{}

/// The second wire where the first is true, and else the third.
pub fn choices_of_wires()
    ensures first { value_of (Formula.Choose 3 2 1) ≡ pos 4 }
    ensures not_other { value_of (Formula.Choose 3 2 1) ≢ pos 0 }
    ensures negative { value_of (Formula.Choose 0 2 1) ≡ pos 4 }
    ensures second { value_of (Formula.Choose 1 2 3) ≡ pos 2 }
{}

/// Equations are satisfied or not in whatever order they stand, and by each of several values.
pub fn values_that_satisfy()
    ensures reversed { (f : ℕ → ℤ)
        → Satisfies f (number_at (pos 1 ∷ pos 0 ∷ [])) (is 0 (Formula.Not 1) ∷
        is 1 (Formula.Const (pos 0)) ∷ []) }
    ensures each { (f : ℕ → ℤ)
        → Satisfies f (number_at (pos 1 ∷ pos 1 ∷ [])) (is 0 (Formula.Const (pos 1)) ∷
        is 1 (Formula.Not 0) ∷ []) → ⊥ }
    ensures several { (f : ℕ → ℤ) (n : ℤ)
        → Satisfies f (λ k. n) (is 0 (Formula.Choose 0 0 0) ∷ []) }
    ensures none { (f w : ℕ → ℤ) → Satisfies f w (is 0 (Formula.Not 0) ∷ []) → ⊥ }
{}

/// Each equation gives the next wire, and reads earlier wires alone.
pub fn ordered_equations()
    ensures fine { IsOrdered 0 (is 0 (Formula.Get 8) ∷ is 1 (Formula.Choose 0 0 0) ∷ []) }
    ensures own_wire { IsOrdered 0 (is 0 (Formula.Not 0) ∷ []) → ⊥ }
    ensures later_wire { IsOrdered 0 (is 0 (Formula.Get 0) ∷ is 1 (Formula.And 0 2) ∷ []) → ⊥ }
    ensures condition { IsOrdered 0 (is 0 (Formula.Get 0) ∷ is 1 (Formula.Choose 1 0 0) ∷ []) → ⊥ }
    ensures left_out { IsOrdered 0 (is 1 (Formula.Get 0) ∷ []) → ⊥ }
    ensures twice { IsOrdered 0 (is 0 (Formula.Get 0) ∷ is 0 (Formula.Get 0) ∷ []) → ⊥ }
{}
