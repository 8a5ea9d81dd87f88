//! Renamed formulas, and equations that are numbered or not, by computation.

ghost use Rattle.std.specs.Prelude.{◌≡◌, ◌≢◌, ℕ, pos, [], ◌∷◌};
ghost use Rattle.wire_code.specs.Numbering.{renamed, renamed_equations, IsNumbering, ReadsGiven, GivesOnce};
ghost use Rattle.wire_code.specs.SmallEquations.{is, by_ten, scattered, by_place};

use crate::formula::Formula;
use java_values::{Kind, Op1, Op2};

/// Each wire of a formula is renamed, and no place of the frame.
pub fn renamed_wires()
    ensures both { renamed by_ten (Formula.Or 1 2) ≡ Formula.Or 11 12 }
    ensures not_first { renamed by_ten (Formula.And 1 2) ≢ Formula.And 11 2 }
    ensures operand { renamed by_ten (Formula.Apply1 Op1.Minus Kind.Int 1) ≡
        Formula.Apply1 Op1.Minus Kind.Int 11 }
    ensures operands { renamed by_ten (Formula.Apply2 Op2.Sub Kind.Int Kind.Long 1 2) ≡
        Formula.Apply2 Op2.Sub Kind.Int Kind.Long 11 12 }
    ensures cast { renamed by_ten (Formula.Cast Kind.Int Kind.Byte 1) ≡
        Formula.Cast Kind.Int Kind.Byte 11 }
    ensures choice { renamed by_ten (Formula.Choose 1 2 3) ≡ Formula.Choose 11 12 13 }
    ensures not_condition { renamed by_ten (Formula.Choose 1 2 3) ≢ Formula.Choose 1 12 13 }
    ensures place { renamed by_ten (Formula.Get 1) ≡ Formula.Get 1 }
    ensures no_place { renamed by_ten (Formula.Get 1) ≢ Formula.Get 11 }
{}

/// The first equation's wire has the first number, and the others follow in the order of the list.
pub fn numbers_by_place()
    ensures fine { IsNumbering by_place 0 scattered }
    ensures from_one { IsNumbering by_place 1 scattered → ⊥ }
    ensures greater { IsNumbering by_ten 0 scattered → ⊥ }
    ensures twice { (r : ℕ → ℕ)
        → IsNumbering r 0 (is 4 (Formula.Get 0) ∷ is 4 (Formula.Get 0) ∷ []) → ⊥ }
    ensures equations { renamed_equations by_place scattered ≡
        is 0 (Formula.Const (pos 4)) ∷ is 1 (Formula.Not 0) ∷ is 2 (Formula.And 0 1) ∷ [] }
    ensures no_old_wire { renamed_equations by_place scattered ≢
        is 0 (Formula.Const (pos 4)) ∷ is 1 (Formula.Not 7) ∷ is 2 (Formula.And 0 1) ∷ [] }
{}

/// An equation reads what the equations before it give, in whatever order their numbers are.
pub fn reads_of_given_wires()
    ensures fine { ReadsGiven [] scattered }
    ensures before { ReadsGiven (is 3 (Formula.Get 0) ∷ []) (is 7 (Formula.Not 3) ∷ []) }
    ensures own_wire { ReadsGiven [] (is 7 (Formula.Not 7) ∷ []) → ⊥ }
    ensures later { ReadsGiven [] (is 7 (Formula.Not 3) ∷ is 3 (Formula.Get 0) ∷ []) → ⊥ }
    ensures second { ReadsGiven [] (is 3 (Formula.Get 0) ∷ is 7 (Formula.Or 3 2) ∷ []) → ⊥ }
    ensures condition { ReadsGiven [] (is 3 (Formula.Get 0) ∷ is 7 (Formula.Choose 2 3 3) ∷ [])
        → ⊥ }
{}

pub fn wires_given_once()
    ensures fine { GivesOnce scattered }
    ensures twice { GivesOnce (is 4 (Formula.Get 0) ∷ is 4 (Formula.Get 1) ∷ []) → ⊥ }
    ensures apart { GivesOnce (is 4 (Formula.Get 0) ∷ is 5 (Formula.Get 0) ∷
        is 4 (Formula.Get 0) ∷ []) → ⊥ }
{}
