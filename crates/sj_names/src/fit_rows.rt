// Parts of small trees with numbers, and whether they fit, evaluated on the definitions themselves.

ghost use Rattle.std.specs.Prelude.{◌≡◌, ◌∷◌, [], None, Some, true, false};
ghost use Rattle.java_values.specs.declared.kind.Kind.TheVariants as kind;
ghost use Rattle.java_values.specs.declared.op.Op1.TheVariants.{BitNot};
ghost use Rattle.java_values.specs.declared.op.Op2.TheVariants.{Add};
ghost use Rattle.sj_ast.specs.declared.expression.Raw.TheOpen.{Raw-F};
ghost use Rattle.sj_ast.specs.declared.test.Test.TheOpen.{Test-F};
ghost use Rattle.sj_ast.specs.declared.statement.Form.TheOpen.{Form-F};
ghost use Rattle.sj_names.specs.declared.entry.TableEntry.TheVariants as entry;
ghost use Rattle.sj_names.specs.definitions.DeclaredSignals.{AreDeclared};
ghost use Rattle.sj_names.specs.definitions.FittingTrees.{term_scope, at_start, fits_tree, entry_rules};
ghost use Rattle.sj_names.specs.FitRows.{small, judged, a_form, in_block, fits_in, exits, in_trap_of, declares, declares_valued, emits, sustains, new_variable, assigns, updates, updates_written_out, sends, receives, of_signal, wrong, fine, status_fits, name_fits, tests_as, reads_as, of_variable, emitting, tree_of, two_locals, tree_declaring};

/// Which exits, and which uses and declarations of signals, fit where they stand.
pub fn small_exits_and_signals()
    ensures in_its_trap { fits_in 0 (in_trap_of 7 (exits 7 ∷ [])) ≡ true }
    ensures in_an_outer_trap { fits_in 0 (in_trap_of 8 (in_trap_of 7 (exits 8 ∷ []) ∷ [])) ≡ true }
    ensures outside_of_traps { fits_in 0 (exits 7) ≡ false }
    ensures behind_its_trap { fits_in 0 (in_block (in_trap_of 7 [] ∷ exits 7 ∷ [])) ≡ false }
    ensures in_another_trap { fits_in 0 (in_trap_of 7 (exits 8 ∷ [])) ≡ false }
    ensures local_signal { fits_in 0 (in_block (declares 3 ∷ emits 3 None ∷ [])) ≡ true }
    ensures in_an_inner_block { fits_in 0 (in_block (declares 3 ∷ in_block (emits 3 None ∷ []) ∷
        []))
        ≡ true }
    ensures before_its_declaration { fits_in 0 (in_block (emits 3 None ∷ declares 3 ∷ [])) ≡ false }
    ensures behind_its_block { fits_in 0 (in_block (in_block (declares 3 ∷ []) ∷ emits 3 None ∷ []))
        ≡ false }
    ensures local_of_another_domain { fits_in 1 (declares 3) ≡ false }
    ensures declared_output { fits_in 0 (declares 1) ≡ false }
    ensures declared_with_a_value { fits_in 0 (declares_valued 3 kind.Int) ≡ false }
    ensures no_such_signal { fits_in 0 (declares 4) ≡ false }
    ensures output { fits_in 0 (emits 1 None) ≡ true }
    ensures input { fits_in 0 (emits 0 None) ≡ false }
    ensures output_of_another_domain { fits_in 0 (emits 2 None) ≡ false }
    ensures its_own_output { fits_in 1 (emits 2 None) ≡ true }
    ensures sustained_output { fits_in 0 (sustains 1 None) ≡ true }
    ensures sustained_input { fits_in 0 (sustains 0 None) ≡ false }
    ensures sustained_output_of_another_domain { fits_in 0 (sustains 2 None) ≡ false }
    ensures tested_input { fits_in 0 (a_form (Form-F.Await false (of_signal 0))) ≡ true }
    ensures tested_signal_of_another_domain { fits_in 0 (a_form (Form-F.Await false (of_signal 2)))
        ≡ false }
{}

/// Which uses of variables and channels fit where they stand, and with which values.
pub fn small_values_and_channels()
    ensures own_variable { fits_in 0 (assigns 0 true) ≡ true }
    ensures variable_of_another_domain { fits_in 1 (assigns 0 true) ≡ false }
    ensures no_such_variable { fits_in 0 (assigns 1 true) ≡ false }
    ensures assigned_value { fits_in 0 (assigns 0 false) ≡ false }
    ensures updated { fits_in 0 (updates 0 true) ≡ true }
    ensures updated_in_another_domain { fits_in 1 (updates 0 true) ≡ false }
    ensures updated_by { fits_in 0 (updates 0 false) ≡ false }
    ensures written_out { fits_in 0 (updates_written_out 0 true) ≡ false }
    ensures new { fits_in 0 (new_variable kind.Int 0 true) ≡ true }
    ensures new_of_another_kind { fits_in 0 (new_variable kind.Byte 0 true) ≡ false }
    ensures new_in_another_domain { fits_in 1 (new_variable kind.Int 0 true) ≡ false }
    ensures first_value { fits_in 0 (new_variable kind.Int 0 false) ≡ false }
    ensures emitted_value { fits_in 0 (emits 1 (Some false)) ≡ false }
    ensures sustained_value { fits_in 0 (sustains 1 (Some false)) ≡ false }
    ensures sender { fits_in 0 (sends 0 true) ≡ true }
    ensures receiver_that_sends { fits_in 1 (sends 0 true) ≡ false }
    ensures no_such_channel { fits_in 0 (sends 1 true) ≡ false }
    ensures sent_value { fits_in 0 (sends 0 false) ≡ false }
    ensures receiver { fits_in 1 (receives 0) ≡ true }
    ensures sender_that_receives { fits_in 0 (receives 0) ≡ false }
    ensures status_in_the_receiver { status_fits 1 (entry.Channel 0) ≡ true }
    ensures status_in_the_sender { status_fits 0 (entry.Channel 0) ≡ false }
    ensures status_of_a_signal { status_fits 0 (entry.Signal 1) ≡ true }
    ensures status_of_a_signal_elsewhere { status_fits 1 (entry.Signal 1) ≡ false }
    ensures name_of_a_variable { name_fits 0 (entry.Variable 0) ≡ true }
    ensures status_of_a_variable { status_fits 0 (entry.Variable 0) ≡ false }
    ensures name_of_a_variable_elsewhere { name_fits 1 (entry.Variable 0) ≡ false }
    ensures name_of_a_signal { name_fits 0 (entry.Signal 1) ≡ false }
    ensures name_of_a_channel { name_fits 1 (entry.Channel 0) ≡ false }
{}

/// A test or an expression doesn't fit where a part of it doesn't.
pub fn small_tests_and_expressions()
    ensures negated { tests_as (Test-F.Not 0 false) ≡ false }
    ensures test_in_parentheses { tests_as (Test-F.Group 0 false) ≡ false }
    ensures left_of_both { tests_as (Test-F.Both 0 false true) ≡ false }
    ensures right_of_both { tests_as (Test-F.Both 0 true false) ≡ false }
    ensures left_of_either { tests_as (Test-F.Either 0 false true) ≡ false }
    ensures right_of_either { tests_as (Test-F.Either 0 true false) ≡ false }
    ensures operand { reads_as (Raw-F.Unary 0 BitNot false) ≡ false }
    ensures converted { reads_as (Raw-F.Cast 0 kind.Int false) ≡ false }
    ensures in_parentheses { reads_as (Raw-F.Group 0 false) ≡ false }
    ensures left_operand { reads_as (Raw-F.Binary 0 Add false true) ≡ false }
    ensures right_operand { reads_as (Raw-F.Binary 0 Add true false) ≡ false }
    ensures given { (entry_rules small).given (term_scope (at_start 0)) kind.Int (of_variable 0)
        ≡ true }
    ensures given_elsewhere { (entry_rules small).given (term_scope (at_start 1)) kind.Int
        (of_variable 0)
        ≡ false }
    ensures emitted { (entry_rules small).emitted (term_scope (at_start 0)) None (Some
        (of_variable 0))
        ≡ true }
    ensures emitted_elsewhere { (entry_rules small).emitted (term_scope (at_start 1)) None (Some
        (of_variable 0))
        ≡ false }
{}

/// A statement doesn't fit where a part of it doesn't; and domains are numbered from 0 on.
pub fn small_parts()
    ensures first_beside { fits_in 0 (a_form (Form-F.Par wrong (fine ∷ []))) ≡ false }
    ensures others_beside { fits_in 0 (a_form (Form-F.Par fine (fine ∷ wrong ∷ []))) ≡ false }
    ensures beside { fits_in 0 (a_form (Form-F.Par fine (fine ∷ []))) ≡ true }
    ensures in_a_block { fits_in 0 (in_block (fine ∷ wrong ∷ [])) ≡ false }
    ensures condition { fits_in 0 (a_form (Form-F.If false fine None)) ≡ false }
    ensures then_part { fits_in 0 (a_form (Form-F.If true wrong None)) ≡ false }
    ensures else_part { fits_in 0 (a_form (Form-F.If true fine (Some wrong))) ≡ false }
    ensures both_parts { fits_in 0 (a_form (Form-F.If true fine (Some fine))) ≡ true }
    ensures tested { fits_in 0 (a_form (Form-F.Present (of_signal 2) fine None)) ≡ false }
    ensures where_present { fits_in 0 (a_form (Form-F.Present (of_signal 0) wrong None)) ≡ false }
    ensures where_absent { fits_in 0 (a_form (Form-F.Present (of_signal 0) fine (Some wrong)))
        ≡ false }
    ensures repeated { fits_in 0 (a_form (Form-F.While wrong)) ≡ false }
    ensures aborted { fits_in 0 (a_form (Form-F.Abort false false (of_signal 0) wrong)) ≡ false }
    ensures aborting { fits_in 0 (a_form (Form-F.Abort false false (of_signal 2) fine)) ≡ false }
    ensures suspended { fits_in 0 (a_form (Form-F.Suspend false (of_signal 0) wrong)) ≡ false }
    ensures suspending { fits_in 0 (a_form (Form-F.Suspend false (of_signal 2) fine)) ≡ false }
    ensures trapped { fits_in 0 (in_trap_of 7 (wrong ∷ [])) ≡ false }
    ensures restarted { fits_in 0 (a_form (Form-F.Every false (of_signal 0) wrong)) ≡ false }
    ensures restarting { fits_in 0 (a_form (Form-F.Every false (of_signal 2) fine)) ≡ false }
    ensures each_body { fits_in 0 (a_form (Form-F.Loop wrong (of_signal 0))) ≡ false }
    ensures each { fits_in 0 (a_form (Form-F.Loop fine (of_signal 2))) ≡ false }
    ensures own_signals { fits_tree small judged (tree_of (emitting 1 ∷ emitting 2 ∷ [])) ≡ true }
    ensures others_signals { fits_tree small judged (tree_of (emitting 2 ∷ emitting 1 ∷ []))
        ≡ false }
    ensures second_domain { fits_tree small judged (tree_of (emitting 1 ∷ emitting 1 ∷ []))
        ≡ false }
{}

/// A tree declares the signals of tables where each declaration has the next number, and only there.
pub fn small_declarations()
    ensures each_the_next { AreDeclared two_locals (tree_declaring 0 (1 ∷ 2 ∷ [])) }
    ensures two_of_one_number { AreDeclared two_locals (tree_declaring 0 (1 ∷ 1 ∷ [])) → ⊥ }
    ensures exchanged { AreDeclared two_locals (tree_declaring 0 (2 ∷ 1 ∷ [])) → ⊥ }
    ensures local_as_the_output { AreDeclared two_locals (tree_declaring 0 (0 ∷ 2 ∷ [])) → ⊥ }
    ensures output_as_a_local { AreDeclared two_locals (tree_declaring 1 (1 ∷ 2 ∷ [])) → ⊥ }
    ensures one_too_few { AreDeclared two_locals (tree_declaring 0 (1 ∷ [])) → ⊥ }
{}
