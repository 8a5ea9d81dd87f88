// Conversions, operators and signals with and without a value, evaluated on the definitions themselves.

ghost use Rattle.std.specs.Prelude.{◌≡◌, ◌∷◌, [], pos, true, false, None, Some};
ghost use Rattle.java_values.specs.declared.kind.Kind.TheVariants as kind;
ghost use Rattle.java_values.specs.declared.op.Op1.TheVariants as op1;
ghost use Rattle.java_values.specs.declared.op.Op2.TheVariants as op2;
ghost use Rattle.kernel_terms.specs.declared.expr.ExprForm as expr_form;
ghost use Rattle.kernel_terms.specs.declared.tables.Tables.{Tables};
ghost use Rattle.sj_ast.specs.declared.expression.Raw.{Raw};
ghost use Rattle.sj_ast.specs.declared.port.CombineOperator.TheVariants as operator;
ghost use Rattle.sj_names.specs.declared.entry.TableEntry.{TableEntry};
ghost use Rattle.java_types.specs.declared.operand.Spelling.TheVariants as spelling;
ghost use Rattle.java_types.specs.declared.failure.TypeFailure.TheVariants as failure;
ghost use Rattle.java_types.specs.definitions.Checks.{fine, wrong, then, first_of};
ghost use Rattle.java_types.specs.definitions.Spellings.{spells_divisor, unary_spelling, grouped};
ghost use Rattle.java_types.specs.definitions.Operands.{expr_of, unary, cast, binary, in_parentheses, written};
ghost use Rattle.java_types.specs.definitions.Conversions.{given, condition, updated, variable_of};
ghost use Rattle.java_types.specs.definitions.TypedTrees.{emission, combination_failures};
ghost use Rattle.java_types.specs.KindRows.{number_of, literal_of, variable, literal_expr, cast_expr, failures_with};

/// What values are given to, on both sides of a range and of the kinds that widen.
pub fn small_conversions()
    ensures same { given kind.Int (variable kind.Int) ≡ fine (variable_of kind.Int 0) }
    ensures wider { given kind.Long (variable kind.Char) ≡
        fine (cast_expr kind.Long (variable_of kind.Char 0)) }
    ensures narrower { given kind.Int (variable kind.Long) ≡ wrong (failure.Mismatch 7) }
    ensures char_to_short { given kind.Short (variable kind.Char) ≡ wrong (failure.Mismatch 7) }
    ensures greatest_byte { given kind.Byte (literal_of kind.Int (pos 127)) ≡
        fine (cast_expr kind.Byte (literal_expr kind.Int (pos 127))) }
    ensures too_great { given kind.Byte (literal_of kind.Int (pos 128)) ≡
        wrong (failure.Mismatch 7) }
    ensures least_byte { then (unary 5 op1.Minus (literal_of kind.Int (pos 128))) (given kind.Byte)
        ≡ fine (cast_expr kind.Byte
        (expr_of kind.Int (expr_form.Unary op1.Minus (literal_expr kind.Int (pos 128))))) }
    ensures too_small { then (unary 5 op1.Minus (literal_of kind.Int (pos 129))) (given kind.Byte) ≡
        wrong (failure.Mismatch 5) }
    ensures two_minuses { then (then (unary 6 op1.Minus (literal_of kind.Int (pos 5)))
        (unary 5 op1.Minus)) (given kind.Byte) ≡ wrong (failure.Mismatch 5) }
    ensures plus { then (unary 5 op1.Plus (literal_of kind.Int (pos 5))) (given kind.Byte) ≡
        wrong (failure.Mismatch 5) }
    ensures in_parentheses { then (unary 5 op1.Minus
        (in_parentheses 6 (literal_of kind.Int (pos 5)))) (given kind.Byte) ≡
        fine (cast_expr kind.Byte
        (expr_of kind.Int (expr_form.Unary op1.Minus (literal_expr kind.Int (pos 5))))) }
    ensures long_literal { given kind.Byte (literal_of kind.Long (pos 5)) ≡
        wrong (failure.Mismatch 7) }
    ensures char_literal { given kind.Short (literal_of kind.Char (pos 97)) ≡
        fine (cast_expr kind.Short (literal_expr kind.Char (pos 97))) }
    ensures number_for_boolean { given kind.Boolean (literal_of kind.Int (pos 1)) ≡
        wrong (failure.Mismatch 7) }
    ensures condition { condition (variable kind.Boolean) ≡ fine (variable_of kind.Boolean 0) }
    ensures number_as_condition { condition (literal_of kind.Int (pos 1)) ≡
        wrong (failure.Mismatch 7) }
{}

/// The kinds that operators take and give, and their divisors.
pub fn small_operators()
    ensures shift_of_a_long { binary 5 op2.Shl (variable_of kind.Long 0) (variable kind.Int) ≡
        fine (expr_of kind.Long
        (expr_form.Binary op2.Shl (variable_of kind.Long 0) (variable_of kind.Int 0))) }
    ensures shift_by_a_long { binary 5 op2.Shl (variable_of kind.Int 0) (variable kind.Long) ≡
        fine (expr_of kind.Int
        (expr_form.Binary op2.Shl (variable_of kind.Int 0) (variable_of kind.Long 0))) }
    ensures sum_of_booleans { binary 5 op2.Add (variable_of kind.Boolean 0) (variable kind.Boolean)
        ≡ wrong (failure.Mismatch 5) }
    ensures cast_of_a_boolean { cast 5 kind.Int (variable kind.Boolean) ≡
        wrong (failure.Mismatch 5) }
    ensures by_a_literal { binary 5 op2.Div (variable_of kind.Int 0) (literal_of kind.Char (pos 97))
        ≡ fine (expr_of kind.Int
        (expr_form.Binary op2.Div (variable_of kind.Int 0) (literal_expr kind.Char (pos 97)))) }
    ensures by_zero { first_of (binary 5 op2.Div (variable_of kind.Int 0)
        (literal_of kind.Int (pos 0))).failures ≡ Some (failure.Divisor 7) }
    ensures by_a_variable { first_of (binary 5 op2.Rem (variable_of kind.Int 0)
        (variable kind.Int)).failures ≡ Some (failure.Divisor 7) }
    ensures kinds_first { binary 5 op2.Div (variable_of kind.Boolean 0)
        (literal_of kind.Int (pos 0)) ≡ wrong (failure.Mismatch 5) }
    ensures minus_number { spells_divisor (unary_spelling op1.Minus
        (spelling.Literal (number_of kind.Int (pos 5)))) ≡ true }
    ensures minus_character { spells_divisor (unary_spelling op1.Minus
        (spelling.Literal (number_of kind.Char (pos 97)))) ≡ false }
    ensures minus_parentheses { spells_divisor (unary_spelling op1.Minus
        (grouped (spelling.Literal (number_of kind.Int (pos 5))))) ≡ false }
    ensures minus_in_parentheses { spells_divisor (grouped (grouped
        (unary_spelling op1.Minus (spelling.Literal (number_of kind.Int (pos 5)))))) ≡ true }
    ensures cast_back { updated kind.Byte 0 5 op2.Add (literal_of kind.Int (pos 1)) ≡
        fine (cast_expr kind.Byte
        (expr_of kind.Int (expr_form.Binary op2.Add (variable_of kind.Byte 0)
        (literal_expr kind.Int (pos 1))))) }
    ensures cast_to_its_own { updated kind.Int 0 5 op2.Add (literal_of kind.Int (pos 1)) ≡
        fine (cast_expr kind.Int
        (expr_of kind.Int (expr_form.Binary op2.Add (variable_of kind.Int 0)
        (literal_expr kind.Int (pos 1))))) }
    ensures boolean_with_a_number { updated kind.Boolean 0 5 op2.Div (literal_of kind.Int (pos 0)) ≡
        wrong (failure.Mismatch 5) }
{}

/// Signals with a value and without one, and the operators of `boolean` signals.
pub fn small_signals()
    ensures pure { (t : Tables) → emission t 9 None None ≡ fine None }
    ensures no_value { (t : Tables) →
        emission t 9 (Some kind.Int) None ≡ wrong (failure.Mismatch 9) }
    ensures value_of_a_pure { (t : Tables) (e : Raw TableEntry) →
        first_of (emission t 9 None (Some e)).failures ≡ Some (failure.Mismatch 9) }
    ensures boolean_sum { failures_with kind.Boolean operator.Add ≡ failure.Mismatch 9 ∷ [] }
    ensures boolean_max { failures_with kind.Boolean operator.Max ≡ failure.Mismatch 9 ∷ [] }
    ensures boolean_min { failures_with kind.Boolean operator.Min ≡ failure.Mismatch 9 ∷ [] }
    ensures boolean_or { failures_with kind.Boolean operator.Or ≡ [] }
    ensures boolean_alone { combination_failures (Some (record {
      kind = kind.Boolean;
      combine = None;
    })) ≡ [] }
    ensures byte_sum { failures_with kind.Byte operator.Add ≡ [] }
{}
