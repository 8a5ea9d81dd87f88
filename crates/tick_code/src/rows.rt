//! Classes of single formulas, by computation.

ghost use Rattle.std.specs.Prelude.{◌≡◌, ℕ, pos, negsuc, List, [], ◌∷◌};
ghost use Rattle.tick_code.specs.WellKinded.{Class, Of, Constant, Fits, HasClass, IsEither, Suits, WellKinded};
ghost use Rattle.tick_code.specs.SmallCodes.{divided_by};

use java_values::{Kind, Op1, Op2};
use wire_code::Formula;

/// A constant is an operand of each kind in whose range it lies, and a wire of a kind of this kind alone.
pub fn operands_of_a_kind()
    ensures constant { Fits Kind.Byte (Constant (pos 127)) }
    ensures out_of_range { Fits Kind.Byte (Constant (pos 128)) → ⊥ }
    ensures no_boolean { Fits Kind.Boolean (Constant (pos 2)) → ⊥ }
    ensures same { Fits Kind.Byte (Of Kind.Byte) }
    ensures not_widened { Fits Kind.Int (Of Kind.Byte) → ⊥ }
{}

/// A place beyond the frame has no class, and an operator has one only where it takes the kinds.
pub fn classes_of_operations()
    ensures place { (c : ℕ → Class)
        → HasClass (Kind.Byte ∷ []) [] c (Formula.Get 0) (Of Kind.Byte) }
    ensures no_place { (c : ℕ → Class) (d : Class)
        → HasClass (Kind.Byte ∷ []) [] c (Formula.Get 1) d → ⊥ }
    ensures promoted { HasClass [] [] (λ k. Of Kind.Byte) (Formula.Apply1 Op1.Minus Kind.Byte 0)
        (Of Kind.Int) }
    ensures not_kept { HasClass [] [] (λ k. Of Kind.Byte) (Formula.Apply1 Op1.Minus Kind.Byte 0)
        (Of Kind.Byte) → ⊥ }
    ensures no_boolean { (d : Class)
        → HasClass [] [] (λ k. Of Kind.Boolean) (Formula.Apply1 Op1.Minus Kind.Boolean 0) d → ⊥ }
    ensures no_cast { (d : Class)
        → HasClass [] [] (λ k. Of Kind.Boolean) (Formula.Cast Kind.Boolean Kind.Int 0) d → ⊥ }
    ensures no_number { (d : Class)
        → HasClass [] [] (λ k. Of Kind.Int) (Formula.Not 0) d → ⊥ }
    ensures undivided { (d : Class)
        → HasClass [] [] (λ k. Of Kind.Int) (Formula.Apply2 Op2.Div Kind.Int Kind.Int 0 0) d
        → ⊥ }
{}

/// A choice between a constant and a kind has the kind, and one between two constants has a class only where they
/// are the same.
pub fn classes_of_choices()
    ensures kind { IsEither (Constant (pos 5)) (Of Kind.Byte) (Of Kind.Byte) }
    ensures other_way { IsEither (Of Kind.Byte) (Constant (negsuc 127)) (Of Kind.Byte) }
    ensures out_of_range { (d : Class) → IsEither (Constant (pos 128)) (Of Kind.Byte) d → ⊥ }
    ensures same { IsEither (Constant (pos 5)) (Constant (pos 5)) (Constant (pos 5)) }
    ensures differ { (d : Class) → IsEither (Constant (pos 5)) (Constant (pos 6)) d → ⊥ }
    ensures two_kinds { (d : Class) → IsEither (Of Kind.Byte) (Of Kind.Int) d → ⊥ }
{}

/// A divisor is given by a constant other than 0.
pub fn safe_divisors()
    ensures constant { Suits (divided_by (Formula.Const (pos 2))) (pos 7 ∷ []) }
    ensures zero { (kinds : List Kind)
        → WellKinded kinds (divided_by (Formula.Const (pos 0))) → ⊥ }
    ensures place { (kinds : List Kind) → WellKinded kinds (divided_by (Formula.Get 0)) → ⊥ }
{}
