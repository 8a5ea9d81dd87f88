// Expressions, statements and signals of small typed trees, and whether they fit, evaluated on the
// definitions themselves.

ghost use Rattle.std.specs.Prelude.{◌≡◌, ◌∷◌, [], pos, negsuc, true, false, None, Some};
ghost use Rattle.java_values.specs.declared.kind.Kind.TheVariants as kind;
ghost use Rattle.java_values.specs.declared.op.Op1.TheVariants as op1;
ghost use Rattle.java_values.specs.declared.op.Op2.TheVariants as op2;
ghost use Rattle.kernel_terms.specs.declared.tables.Combine.TheVariants as combine;
ghost use Rattle.kernel_terms.specs.Expressions.{Literal, Variable, SignalValue, ChannelValue};
ghost use Rattle.kernel_terms.specs.Expressions.{Unary, Binary, Cast};
ghost use Rattle.sj_ast.specs.declared.port.CombineOperator.TheVariants as operator;
ghost use Rattle.sj_ast.specs.declared.statement.Form.TheOpen.{Form-F};
ghost use Rattle.sj_names.specs.definitions.DeclaredSignals.{AreDeclared};
ghost use Rattle.java_types.specs.definitions.Combinations.{combinations_fit};
ghost use Rattle.java_types.specs.KindRows.{cast_expr};
ghost use Rattle.java_types.specs.SmallTrees.{byte, truth, int, long, strange};
ghost use Rattle.java_types.specs.SmallTrees.{fits_here, fits_within, may_give, stands, fine_part};
ghost use Rattle.java_types.specs.SmallTrees.{byte_tree, truth_tree, int_tree, strange_tree};
ghost use Rattle.java_types.specs.SmallTrees.{quotient_by, minus, sum_of};
ghost use Rattle.java_types.specs.SmallTrees.{tables_with, output_of, combined_fits};
ghost use Rattle.java_types.specs.SmallTrees.{declares, declares_at, plain, combined_by, tree_with};

/// An expression has the kind of its entry, or the one that its operator gives. A literal has a
/// kind that holds its number.
pub fn small_kinds()
    ensures greatest_byte { fits_here (Literal kind.Byte (pos 127)) ≡ true }
    ensures past_a_byte { fits_here (Literal kind.Byte (pos 128)) ≡ false }
    ensures least_byte { fits_here (Literal kind.Byte (negsuc 127)) ≡ true }
    ensures below_a_byte { fits_here (Literal kind.Byte (negsuc 128)) ≡ false }
    ensures variable { fits_here byte ≡ true }
    ensures variable_as_another_kind { fits_here (Variable kind.Int 0) ≡ false }
    ensures variable_of_another_domain { fits_here strange ≡ false }
    ensures channel { fits_here (ChannelValue kind.Long 1) ≡ true }
    ensures channel_as_another_kind { fits_here (ChannelValue kind.Int 1) ≡ false }
    ensures channel_in_its_sender { fits_here (ChannelValue kind.Byte 0) ≡ false }
    ensures sum_of_bytes { fits_here (Binary kind.Int op2.Add byte byte) ≡ true }
    ensures sum_as_a_byte { fits_here (Binary kind.Byte op2.Add byte byte) ≡ false }
    ensures sum_with_a_long { fits_here (Binary kind.Long op2.Add byte long) ≡ true }
    ensures sum_with_a_long_as_an_int { fits_here (Binary kind.Int op2.Add byte long) ≡ false }
    ensures shift_by_a_long { fits_here (Binary kind.Int op2.Shl byte long) ≡ true }
    ensures shift_as_a_long { fits_here (Binary kind.Long op2.Shl byte long) ≡ false }
    ensures comparison { fits_here (Binary kind.Boolean op2.Less byte int) ≡ true }
    ensures comparison_as_an_int { fits_here (Binary kind.Int op2.Less byte int) ≡ false }
    ensures minus_of_a_byte { fits_here (Unary kind.Int op1.Minus byte) ≡ true }
    ensures minus_as_a_byte { fits_here (Unary kind.Byte op1.Minus byte) ≡ false }
{}

/// An operator takes the kinds of its operands, and each operand fits and has allowed divisors
/// alone.
pub fn small_operands()
    ensures sum_of_booleans { fits_here (Binary kind.Int op2.Add truth truth) ≡ false }
    ensures both_of_booleans { fits_here (Binary kind.Boolean op2.Both truth truth) ≡ true }
    ensures both_of_numbers { fits_here (Binary kind.Boolean op2.Both byte byte) ≡ false }
    ensures equal_booleans { fits_here (Binary kind.Boolean op2.Equal truth truth) ≡ true }
    ensures boolean_with_a_number { fits_here (Binary kind.Boolean op2.Equal truth byte) ≡ false }
    ensures not { fits_here (Unary kind.Boolean op1.Not truth) ≡ true }
    ensures not_of_a_number { fits_here (Unary kind.Boolean op1.Not byte) ≡ false }
    ensures cast_of_a_number { fits_here (Cast kind.Byte int) ≡ true }
    ensures cast_of_a_boolean { fits_here (Cast kind.Int truth) ≡ false }
    ensures under_a_minus { fits_here (Unary kind.Int op1.Minus strange) ≡ false }
    ensures on_the_left { fits_here (Binary kind.Int op2.Add strange byte) ≡ false }
    ensures on_the_right { fits_here (Binary kind.Int op2.Add byte strange) ≡ false }
    ensures in_a_cast { fits_here (Cast kind.Byte strange) ≡ false }
    ensures quotient { may_give kind.Int (quotient_by (pos 2)) ≡ true }
    ensures quotient_by_zero { may_give kind.Int (quotient_by (pos 0)) ≡ false }
    ensures quotient_for_a_byte { may_give kind.Byte (quotient_by (pos 2)) ≡ false }
    ensures minus_of_a_quotient { may_give kind.Int (minus (quotient_by (pos 2))) ≡ true }
    ensures minus_of_one_by_zero { may_give kind.Int (minus (quotient_by (pos 0))) ≡ false }
    ensures left_quotient { may_give kind.Int (sum_of (quotient_by (pos 2)) int_tree) ≡ true }
    ensures left_by_zero { may_give kind.Int (sum_of (quotient_by (pos 0)) int_tree) ≡ false }
    ensures right_quotient { may_give kind.Int (sum_of int_tree (quotient_by (pos 2))) ≡ true }
    ensures right_by_zero { may_give kind.Int (sum_of int_tree (quotient_by (pos 0))) ≡ false }
    ensures cast_of_a_quotient { may_give kind.Byte (cast_expr kind.Byte (quotient_by (pos 2)))
        ≡ true }
    ensures cast_of_one_by_zero { may_give kind.Byte (cast_expr kind.Byte (quotient_by (pos 0)))
        ≡ false }
{}

/// Each expression of a statement fits, has the kind of what it is given to, and allowed divisors
/// alone.
pub fn small_expressions()
    ensures first_value { stands (Form-F.Variable kind.Byte 0 0 byte_tree) ≡ true }
    ensures first_value_of_another_kind { stands (Form-F.Variable kind.Byte 0 0 int_tree) ≡ false }
    ensures first_value_by_zero { stands (Form-F.Variable kind.Int 0 2 (quotient_by (pos 0)))
        ≡ false }
    ensures assigned { stands (Form-F.Assign 0 0 byte_tree) ≡ true }
    ensures assigned_of_another_kind { stands (Form-F.Assign 0 0 int_tree) ≡ false }
    ensures assigned_of_another_domain { stands (Form-F.Assign 0 2 strange_tree) ≡ false }
    ensures assigned_quotient { stands (Form-F.Assign 0 2 (quotient_by (pos 2))) ≡ true }
    ensures assigned_by_zero { stands (Form-F.Assign 0 2 (quotient_by (pos 0))) ≡ false }
    ensures updated { stands (Form-F.Update 0 2 0 op2.Add int_tree) ≡ false }
    ensures pure { stands (Form-F.Emit 0 0 None) ≡ true }
    ensures value_of_a_pure { stands (Form-F.Emit 0 0 (Some int_tree)) ≡ false }
    ensures emitted { stands (Form-F.Emit 0 1 (Some int_tree)) ≡ true }
    ensures emitted_of_another_kind { stands (Form-F.Emit 0 1 (Some byte_tree)) ≡ false }
    ensures emitted_of_another_domain { stands (Form-F.Emit 0 1 (Some strange_tree)) ≡ false }
    ensures emitted_by_zero { stands (Form-F.Emit 0 1 (Some (quotient_by (pos 0)))) ≡ false }
    ensures no_value { stands (Form-F.Emit 0 1 None) ≡ false }
    ensures sustained { stands (Form-F.Sustain 0 2 (Some truth_tree)) ≡ true }
    ensures sustained_of_another_kind { stands (Form-F.Sustain 0 2 (Some int_tree)) ≡ false }
    ensures sustained_by_zero { stands (Form-F.Sustain 0 1 (Some (quotient_by (pos 0)))) ≡ false }
    ensures condition { stands (Form-F.If truth_tree fine_part None) ≡ true }
    ensures number_as_a_condition { stands (Form-F.If int_tree fine_part None) ≡ false }
    ensures sent { stands (Form-F.Send 0 0 byte_tree) ≡ true }
    ensures sent_of_another_kind { stands (Form-F.Send 0 0 int_tree) ≡ false }
{}

/// Which signals an expression may read, and as which kind. The tables have each declared signal,
/// in order, with its kind and its combination.
pub fn small_signal_names()
    ensures output { fits_here (SignalValue kind.Int 1) ≡ true }
    ensures output_as_another_kind { fits_here (SignalValue kind.Long 1) ≡ false }
    ensures output_of_another_domain { fits_here (SignalValue kind.Int 3) ≡ false }
    ensures pure { fits_here (SignalValue kind.Boolean 0) ≡ false }
    ensures no_such_signal { fits_here (SignalValue kind.Int 5) ≡ false }
    ensures local { fits_within (4 ∷ []) (SignalValue kind.Int 4) ≡ true }
    ensures local_outside_of_its_body { fits_here (SignalValue kind.Int 4) ≡ false }
    ensures declared { AreDeclared (tables_with (output_of (Some kind.Int) combine.Max ∷ []))
        (tree_with (declares (plain kind.Int) ∷ [])) }
    ensures declared_boolean { AreDeclared
        (tables_with (output_of (Some kind.Boolean) combine.Or ∷ []))
        (tree_with (declares (plain kind.Boolean) ∷ [])) }
    ensures of_another_kind { AreDeclared (tables_with (output_of (Some kind.Int) combine.Max ∷ []))
        (tree_with (declares (plain kind.Byte) ∷ [])) → ⊥ }
    ensures without_its_value { AreDeclared (tables_with (output_of None combine.Max ∷ []))
        (tree_with (declares (plain kind.Int) ∷ [])) → ⊥ }
    ensures with_its_operator { AreDeclared
        (tables_with (output_of (Some kind.Int) combine.Min ∷ []))
        (tree_with (declares (combined_by kind.Int operator.Min) ∷ [])) }
    ensures of_another_operator { AreDeclared
        (tables_with (output_of (Some kind.Int) combine.Max ∷ []))
        (tree_with (declares (combined_by kind.Int operator.Min) ∷ [])) → ⊥ }
    ensures not_declared { AreDeclared (tables_with (output_of None combine.Max ∷ []))
        (tree_with []) → ⊥ }
    ensures not_in_the_tables { AreDeclared (tables_with [])
        (tree_with (declares None ∷ [])) → ⊥ }
    ensures in_order { AreDeclared
        (tables_with (output_of None combine.Max ∷ output_of (Some kind.Int) combine.Max ∷ []))
        (tree_with (declares None ∷ declares_at 1 (plain kind.Int) ∷ [])) }
    ensures in_another_order { AreDeclared
        (tables_with (output_of None combine.Max ∷ output_of (Some kind.Int) combine.Max ∷ []))
        (tree_with (declares (plain kind.Int) ∷ declares_at 1 None ∷ [])) → ⊥ }
{}

/// Which combinations fit signals of which kinds.
pub fn small_combinations()
    ensures pure { combined_fits None combine.Max ≡ true }
    ensures pure_with_a_sum { combined_fits None combine.Add ≡ false }
    ensures pure_with_an_or { combined_fits None combine.Or ≡ false }
    ensures boolean_and { combined_fits (Some kind.Boolean) combine.And ≡ true }
    ensures boolean_or { combined_fits (Some kind.Boolean) combine.Or ≡ true }
    ensures boolean_xor { combined_fits (Some kind.Boolean) combine.Xor ≡ true }
    ensures boolean_sum { combined_fits (Some kind.Boolean) combine.Add ≡ false }
    ensures boolean_max { combined_fits (Some kind.Boolean) combine.Max ≡ false }
    ensures boolean_min { combined_fits (Some kind.Boolean) combine.Min ≡ false }
    ensures byte_sum { combined_fits (Some kind.Byte) combine.Add ≡ true }
    ensures byte_or { combined_fits (Some kind.Byte) combine.Or ≡ true }
    ensures later_signal { combinations_fit (tables_with
        (output_of None combine.Max ∷ output_of None combine.Min ∷ [])) ≡ false }
{}
