//! Whether small statements may end and exit, in their starting tick and in a later one.

ghost use Rattle.std.specs.Prelude.{◌≡◌, true, false, ◌||◌};
ghost use Rattle.std.specs.List.{All, list_all, list_any};
ghost use Rattle.kernel_terms.specs.Statements.{Loop, Nothing};
ghost use Rattle.kernel_terms.specs.MayEnd.{ends0, ends1, exits0, exits1, LoopsWait};
ghost use Rattle.kernel_rules.specs.Worked.Variables.{forms_around};
ghost use Rattle.kernel_rules.specs.Worked.Ways.{endless};
ghost use Rattle.kernel_rules.specs.Worked.Ways.{ending_at_once, not_ending_at_once};
ghost use Rattle.kernel_rules.specs.Worked.Ways.{ending_later, not_ending_later};
ghost use Rattle.kernel_rules.specs.Worked.Ways.{staying, not_staying, abort_of};
ghost use Rattle.kernel_rules.specs.Worked.Ways.{exiting_at_once, not_exiting_at_once};
ghost use Rattle.kernel_rules.specs.Worked.Ways.{exiting_later, not_exiting_later, not_exiting};

/// Which statements of each form may end in their starting tick, and which in a later one. An abort may
/// end later exactly if its body has a later tick.
pub fn shape_tells_ends()
    ensures at_once { list_all ends0 ending_at_once ≡ true }
    ensures not_at_once { list_any ends0 not_ending_at_once ≡ false }
    ensures later { list_all ends1 ending_later ≡ true }
    ensures not_later { list_any ends1 not_ending_later ≡ false }
    ensures aborted { list_all (λ p. ends1 (abort_of false false p)) staying ≡ true }
    ensures not_aborted { list_any (λ p. ends1 (abort_of false false p)) not_staying ≡ false }
{}

/// A loop whose body may end at once is found in each form, and one whose body may not is none.
pub fn loops_of_each_form_wait()
    ensures itself { LoopsWait (Loop Nothing) → ⊥ }
    ensures refused { All (λ p. LoopsWait p → ⊥) (forms_around (Loop Nothing)) }
    ensures kept { All LoopsWait (forms_around endless) }
{}

/// Which statements of each form may exit to the trap of the depth 1 in their starting tick, and which in
/// a later one. The other forms without parts exit in neither.
pub fn shape_tells_exits()
    ensures at_once { list_all (λ p. exits0 p 1) exiting_at_once ≡ true }
    ensures not_at_once { list_any (λ p. exits0 p 1) not_exiting_at_once ≡ false }
    ensures later { list_all (λ p. exits1 p 1) exiting_later ≡ true }
    ensures not_later { list_any (λ p. exits1 p 1) not_exiting_later ≡ false }
    ensures none { list_any (λ p. exits0 p 0 || exits0 p 1) not_exiting ≡ false }
    ensures none_later { list_any (λ p. exits1 p 0 || exits1 p 1) not_exiting ≡ false }
{}
