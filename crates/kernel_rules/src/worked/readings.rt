//! What expressions, tests and statements read, and the values of signals.

ghost use Rattle.std.specs.Prelude.{◌≡◌, pos, negsuc, true, false, [], ◌∷◌, ◌++◌, Some, None, map};
ghost use Rattle.java_values.specs.declared.kind.Kind.TheVariants as kind;
ghost use Rattle.java_values.specs.declared.op.Op1.TheVariants as op1;
ghost use Rattle.java_values.specs.declared.op.Op2.TheVariants as op2;
ghost use Rattle.kernel_terms.specs.declared.tables.Combine.TheVariants as combine;
ghost use Rattle.kernel_terms.specs.Expressions.{Literal, Unary, Binary, Cast};
ghost use Rattle.kernel_terms.specs.Expressions.{IsPresent, Not, Both, Either};
ghost use Rattle.kernel_rules.specs.definitions.Expressions.{value_of, holds};
ghost use Rattle.kernel_rules.specs.definitions.LegalTick.{input_status, emitted_status};
ghost use Rattle.kernel_rules.specs.definitions.Signals.{folded, is_emitted, values_of, without, shown, put_at};
ghost use Rattle.kernel_rules.specs.Rows.{int, summed};
ghost use Rattle.kernel_rules.specs.ShownTicks.{ShowsFrom, ends_in, emitted, all_zero};
ghost use Rattle.kernel_rules.specs.ShownTicks.{present_with, absent_with};
ghost use Rattle.kernel_rules.specs.Worked.Words.{no_tables, variable, signal_value, emit_value};
ghost use Rattle.kernel_rules.specs.Worked.Readings.{readings, one_variable, two_signals, one_channel};
ghost use Rattle.kernel_rules.specs.Worked.Readings.{channel_value, sum_of_all, literal};
ghost use Rattle.kernel_rules.specs.Worked.Readings.{asks_for_sum, assigns_sum, signal_of};
ghost use Rattle.kernel_rules.specs.Worked.Readings.{some_emissions, greatest_added};
ghost use Rattle.kernel_rules.specs.Worked.Readings.{on_ints, on_booleans, arithmetic, comparisons};
ghost use Rattle.kernel_rules.specs.Worked.Readings.{bitwise, logical, casts};

/// Each form of expression has its value: of a variable, of a signal, present or not, of a channel, and
/// of the operands in their order.
pub fn expressions_have_values()
    ensures number { value_of readings (int 3) ≡ pos 3 }
    ensures variable { value_of readings (variable 1) ≡ pos 7 }
    ensures other_variable { value_of readings (variable 2) ≡ pos 0 }
    ensures signal { value_of readings (signal_value 3) ≡ pos 80 }
    ensures other_signal { value_of readings (signal_value 0) ≡ pos 0 }
    ensures channel { value_of readings (channel_value 2) ≡ pos 900 }
    ensures other_channel { value_of readings (channel_value 1) ≡ pos 0 }
    ensures minus { value_of readings (Unary kind.Int op1.Minus (variable 1)) ≡ negsuc 6 }
    ensures inverse { value_of readings (Unary kind.Boolean op1.Not (literal kind.Boolean 1)) ≡ pos
        0 }
    ensures difference { value_of readings (Binary kind.Int op2.Sub (variable 1) (int 10)) ≡
        negsuc 2 }
    ensures cast { value_of readings (Cast kind.Byte (int 300)) ≡ pos 44 }
{}

/// An operator computes in the kinds of its operands.
pub fn operands_have_kinds()
    ensures bytes { value_of readings
        (Binary kind.Int op2.Add (literal kind.Byte 100) (literal kind.Byte 100)) ≡ pos 200 }
    ensures ints { value_of readings
        (Binary kind.Int op2.Add (literal kind.Int 2147483647) (literal kind.Int 1)) ≡
        negsuc 2147483647 }
    ensures first_long { value_of readings
        (Binary kind.Long op2.Add (literal kind.Long 2147483647) (literal kind.Int 1)) ≡
        pos 2147483648 }
    ensures second_long { value_of readings
        (Binary kind.Long op2.Add (literal kind.Int 2147483647) (literal kind.Long 1)) ≡
        pos 2147483648 }
    ensures minus_int { value_of readings
        (Unary kind.Int op1.Minus (Literal kind.Int (negsuc 2147483647))) ≡ negsuc 2147483647 }
    ensures minus_long { value_of readings
        (Unary kind.Long op1.Minus (Literal kind.Long (negsuc 2147483647))) ≡ pos 2147483648 }
    ensures shifted_int { value_of readings
        (Binary kind.Int op2.Shl (literal kind.Int 1) (literal kind.Long 33)) ≡ pos 2 }
    ensures shifted_long { value_of readings
        (Binary kind.Long op2.Shl (literal kind.Long 1) (literal kind.Int 33)) ≡ pos 8589934592 }
    ensures forms_of_int { map (λ e. value_of readings e) (greatest_added kind.Int)
        ≡ negsuc 2147483647 ∷ negsuc 2147483641 ∷ negsuc 2147483568 ∷ negsuc 2147482748
        ∷ negsuc 2147483647 ∷ negsuc 2147483646 ∷ negsuc 2147483646 ∷ negsuc 2147483647 ∷ [] }
    ensures forms_of_long { map (λ e. value_of readings e) (greatest_added kind.Long)
        ≡ pos 2147483648 ∷ pos 2147483654 ∷ pos 2147483727 ∷ pos 2147484547
        ∷ pos 2147483648 ∷ pos 2147483649 ∷ pos 2147483649 ∷ pos 2147483648 ∷ [] }
{}

/// Each operator and each cast has its value.
pub fn operators_have_their_values()
    ensures numbers { map (λ e. value_of readings e)
        (on_ints kind.Int arithmetic (negsuc 6) (pos 2))
        ≡ negsuc 13 ∷ negsuc 2 ∷ negsuc 0 ∷ negsuc 4 ∷ negsuc 8 ∷ negsuc 27 ∷ negsuc 1
        ∷ pos 1073741822 ∷ [] }
    ensures less { map (λ e. value_of readings e)
        (on_ints kind.Boolean comparisons (negsuc 6) (pos 2))
        ≡ pos 1 ∷ pos 1 ∷ pos 0 ∷ pos 0 ∷ pos 0 ∷ pos 1 ∷ [] }
    ensures equal { map (λ e. value_of readings e)
        (on_ints kind.Boolean comparisons (pos 2) (pos 2))
        ≡ pos 0 ∷ pos 1 ∷ pos 0 ∷ pos 1 ∷ pos 1 ∷ pos 0 ∷ [] }
    ensures greater { map (λ e. value_of readings e)
        (on_ints kind.Boolean comparisons (pos 2) (negsuc 6))
        ≡ pos 0 ∷ pos 0 ∷ pos 1 ∷ pos 1 ∷ pos 0 ∷ pos 1 ∷ [] }
    ensures bits { map (λ e. value_of readings e) (on_ints kind.Int bitwise (pos 12) (pos 10))
        ≡ pos 8 ∷ pos 6 ∷ pos 14 ∷ [] }
    ensures bits_of_minus_one { map (λ e. value_of readings e) (on_ints kind.Int bitwise (negsuc 0) (pos 10))
        ≡ pos 10 ∷ negsuc 10 ∷ negsuc 0 ∷ [] }
    ensures neither { map (λ e. value_of readings e) (on_booleans (bitwise ++ logical) 0 0)
        ≡ pos 0 ∷ pos 0 ∷ pos 0 ∷ pos 0 ∷ pos 0 ∷ [] }
    ensures first { map (λ e. value_of readings e) (on_booleans (bitwise ++ logical) 1 0)
        ≡ pos 0 ∷ pos 1 ∷ pos 1 ∷ pos 0 ∷ pos 1 ∷ [] }
    ensures second { map (λ e. value_of readings e) (on_booleans (bitwise ++ logical) 0 1)
        ≡ pos 0 ∷ pos 1 ∷ pos 1 ∷ pos 0 ∷ pos 1 ∷ [] }
    ensures both { map (λ e. value_of readings e) (on_booleans (bitwise ++ logical) 1 1)
        ≡ pos 1 ∷ pos 0 ∷ pos 1 ∷ pos 1 ∷ pos 1 ∷ [] }
    ensures one_operand { map (λ o. value_of readings (Unary kind.Int o (variable 1)))
        (op1.Plus ∷ op1.Minus ∷ op1.BitNot ∷ []) ≡ pos 7 ∷ negsuc 6 ∷ negsuc 7 ∷ [] }
    ensures inverse { map
        (λ n. value_of readings (Unary kind.Boolean op1.Not (literal kind.Boolean n)))
        (0 ∷ 1 ∷ []) ≡ pos 1 ∷ pos 0 ∷ [] }
    ensures casts { map (λ e. value_of readings e) casts
        ≡ negsuc 47 ∷ negsuc 25135 ∷ pos 40400 ∷ pos 40400 ∷ pos 8589974992 ∷ [] }
{}

/// A test looks at presence, and not at values, and combines what its parts say.
pub fn tests_look_at_presence()
    ensures present { holds two_signals (IsPresent 0) ≡ true }
    ensures absent { holds two_signals (IsPresent 3) ≡ false }
    ensures not_present { holds two_signals (Not (IsPresent 0)) ≡ false }
    ensures not_absent { holds two_signals (Not (IsPresent 3)) ≡ true }
    ensures both { holds two_signals (Both (IsPresent 0) (IsPresent 0)) ≡ true }
    ensures first_alone { holds two_signals (Both (IsPresent 0) (IsPresent 3)) ≡ false }
    ensures second_alone { holds two_signals (Both (IsPresent 3) (IsPresent 0)) ≡ false }
    ensures both_absent { holds two_signals (Both (IsPresent 3) (IsPresent 3)) ≡ false }
    ensures either_first { holds two_signals (Either (IsPresent 0) (IsPresent 3)) ≡ true }
    ensures either_second { holds two_signals (Either (IsPresent 3) (IsPresent 0)) ≡ true }
    ensures either_both { holds two_signals (Either (IsPresent 0) (IsPresent 0)) ≡ true }
    ensures neither { holds two_signals (Either (IsPresent 3) (IsPresent 3)) ≡ false }
{}

/// An emission, an assignment and a condition read the variables, the signals' values and the channels'
/// last values of the tick.
pub fn statements_read_the_tick()
    ensures emission { ShowsFrom no_tables one_channel (emit_value 0 sum_of_all) one_variable
        (ends_in two_signals (emitted 0 987 ∷ []) ∷ []) }
    ensures assignment { ShowsFrom no_tables one_channel assigns_sum one_variable
        (ends_in two_signals (emitted 0 987 ∷ []) ∷ []) }
    ensures condition { ShowsFrom no_tables one_channel asks_for_sum one_variable
        (ends_in two_signals (emitted 0 0 ∷ []) ∷ []) }
{}

/// The value of a signal combines the values of all its emissions by its operator, in its kind, and
/// leaves out the last value. Where there are none it is the last value.
pub fn emissions_are_combined()
    ensures none { folded (summed []) (pos 9) [] ≡ pos 9 }
    ensures one { folded (summed []) (pos 9) (pos 3 ∷ []) ≡ pos 3 }
    ensures add { folded (signal_of kind.Int combine.Add) (pos 9) (pos 3 ∷ pos 1 ∷ pos 2 ∷
        []) ≡ pos 6 }
    ensures add_wraps { folded (signal_of kind.Byte combine.Add) (pos 9) (pos 100 ∷ pos 100 ∷ []) ≡
        negsuc 55 }
    ensures greatest { folded (signal_of kind.Int combine.Max) (pos 9) (pos 1 ∷ pos 3 ∷ pos 2 ∷
        []) ≡ pos 3 }
    ensures least { folded (signal_of kind.Int combine.Min) (pos 0) (pos 3 ∷ pos 1 ∷ pos 2 ∷
        []) ≡ pos 1 }
    ensures negative { folded (signal_of kind.Int combine.Max) (pos 9) (negsuc 4 ∷ negsuc 1 ∷ []) ≡
        negsuc 1 }
    ensures bits_and { folded (signal_of kind.Int combine.And) (pos 0) (pos 14 ∷ pos 11 ∷ pos 13 ∷
        []) ≡ pos 8 }
    ensures bits_or { folded (signal_of kind.Int combine.Or) (pos 8) (pos 1 ∷ pos 2 ∷ pos 4 ∷
        []) ≡ pos 7 }
    ensures bits_xor { folded (signal_of kind.Int combine.Xor) (pos 8) (pos 1 ∷ pos 3 ∷ pos 7 ∷
        []) ≡ pos 5 }
    ensures all { folded (signal_of kind.Boolean combine.And) (pos 0) (pos 1 ∷ pos 1 ∷ []) ≡ pos 1 }
    ensures not_all { folded (signal_of kind.Boolean combine.And) (pos 1) (pos 1 ∷ pos 0 ∷
        []) ≡ pos 0 }
    ensures some { folded (signal_of kind.Boolean combine.Or) (pos 0) (pos 0 ∷ pos 1 ∷ []) ≡ pos 1 }
    ensures even { folded (signal_of kind.Boolean combine.Xor) (pos 1) (pos 1 ∷ pos 1 ∷ []) ≡
        pos 0 }
{}

/// At the kind `long` emissions are combined in all 64 bits.
pub fn long_emissions_are_combined()
    ensures add { folded (signal_of kind.Long combine.Add) (pos 0)
        (pos 4294967297 ∷ pos 4294967298 ∷ []) ≡ pos 8589934595 }
    ensures add_wraps { folded (signal_of kind.Long combine.Add) (pos 0)
        (pos 9223372036854775807 ∷ pos 4294967296 ∷ []) ≡ negsuc 9223372032559808512 }
    ensures greatest { folded (signal_of kind.Long combine.Max) (pos 0)
        (pos 8589934593 ∷ pos 4294967298 ∷ []) ≡ pos 8589934593 }
    ensures least { folded (signal_of kind.Long combine.Min) (pos 0)
        (pos 8589934593 ∷ pos 4294967298 ∷ []) ≡ pos 4294967298 }
    ensures bits_and { folded (signal_of kind.Long combine.And) (pos 0)
        (pos 12884901902 ∷ pos 8589934603 ∷ []) ≡ pos 8589934602 }
    ensures bits_or { folded (signal_of kind.Long combine.Or) (pos 0)
        (pos 4294967297 ∷ pos 8589934594 ∷ []) ≡ pos 12884901891 }
    ensures bits_xor { folded (signal_of kind.Long combine.Xor) (pos 0)
        (pos 12884901889 ∷ pos 4294967299 ∷ []) ≡ pos 8589934594 }
{}

/// The emissions of one signal, and those of all others.
pub fn emissions_are_told_apart()
    ensures emitted { is_emitted some_emissions 2 ≡ true }
    ensures not_emitted { is_emitted some_emissions 3 ≡ false }
    ensures values { values_of 0 some_emissions ≡ pos 5 ∷ pos 4 ∷ [] }
    ensures no_values { values_of 3 some_emissions ≡ [] }
    ensures others { without 0 some_emissions ≡ emitted 1 6 ∷ emitted 2 3 ∷ [] }
{}

/// An input is as handed in, an output as emitted, and each keeps its last value where it is absent. A
/// log shows a value where the signal is present.
pub fn statuses_are_as_given()
    ensures handed { input_status (Some (pos 4)) (pos 9) ≡ present_with 4 }
    ensures not_handed { input_status None (pos 9) ≡ absent_with 9 }
    ensures emitted { emitted_status (summed []) 0 (pos 9) some_emissions ≡ present_with 9 }
    ensures emitted_once { emitted_status (summed []) 1 (pos 9) some_emissions ≡ present_with 6 }
    ensures not_emitted { emitted_status (summed []) 3 (pos 9) some_emissions ≡ absent_with 9 }
    ensures shows { shown (present_with 4) ≡ Some (pos 4) }
    ensures shows_nothing { shown (absent_with 4) ≡ None }
    ensures put { put_at all_zero 1 (pos 7) 1 ≡ pos 7 }
    ensures left { put_at all_zero 1 (pos 7) 2 ≡ pos 0 }
{}
