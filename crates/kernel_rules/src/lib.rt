//! The rules of the language: values of expressions, signal environments, the tick rule, legal
//! ticks, and the statement that a domain's registers stand for.
#![tactic(auto)]

mod laws;
mod rows;
mod worked;

pub use laws::{
    combination_has_no_order, emissions_have_no_order, environment_decides_tick,
    greater_code_counts, later_ticks_are_foreseen, legal_ticks_read_their_inputs,
    local_emissions_stay_inside, residuals_mention_no_more, starting_ticks_are_foreseen,
    ticks_leave_little, traps_lower_exits, weak_aborts_end_pauses,
};
pub use rows::{
    new_copy_has_first_value, new_copy_of_local_each_turn, sibling_runs_in_exiting_tick,
    strong_abort_stops_its_body, suspended_receive_waits, suspended_statement_stays,
    three_copies_in_one_tick, weak_abort_runs_its_body,
};
pub use worked::{
    abort_ends_waiting_send, abort_ends_with_its_body, abort_is_armed_after_its_start,
    aborted_body_assigns, absent_input_keeps_its_value, absent_output_keeps_its_value,
    body_hands_on_variables, branches_read_old_variables, choice_exits_with_its_branch,
    code_above_exits_stays, coherence_decides, completed_ends_go_on,
    each_form_has_registers_of_parts, each_form_mentions_what_it_names, emissions_are_combined,
    emissions_are_told_apart, ended_branch_keeps_its_variables, ended_branch_shares_a_variable,
    endless_turn_has_no_tick, every_exit_ends_parallel, every_exit_passes_as_it_is,
    exit_ends_pausing_branch, exit_keeps_emissions_and_variables, exit_leaves_local,
    exit_passes_through, expressions_have_values, if_takes_one_branch,
    immediate_abort_is_armed_at_once, last_value_is_not_combined,
    later_code_above_exits_passes_through, later_exit_keeps_emissions_and_variables,
    later_exit_passes_through, legal_tick_counts, legal_tick_reads_state, local_coherence_decides,
    local_combines_emissions, local_hands_on_variables, local_is_present_where_emitted,
    local_keeps_its_last_value, locals_are_apart, log_shows_own_signals,
    long_emissions_are_combined, loop_begins_anew, loops_of_each_form_wait, new_start_is_not_armed,
    new_start_of_immediate_abort_is_armed, operands_are_read, operands_have_kinds,
    operators_have_their_values, outer_exit_counts, outer_exit_is_lowered,
    output_is_present_where_emitted, parallel_ends_with_its_last_branch, parallel_joins_variables,
    pausing_body_hands_on_variables, present_takes_one_branch, registers_fit,
    registers_hold_values, registers_refused, registers_stand_for_statement,
    registers_stand_in_order, second_part_has_later_registers, send_and_receive_wait,
    send_computes_at_once, sequence_hands_on_variables, sequence_waits_for_its_first_part,
    shape_tells_ends, shape_tells_exits, some_domains_make_no_tick,
    statement_assigns_what_it_names, statement_has_divisors_of_its_parts,
    statement_mentions_what_it_names, statements_read_the_tick, statuses_are_as_given,
    suspend_is_armed_after_its_start, suspended_local_keeps_its_value, tests_look_at_presence,
    trap_ends_at_its_exit, valued_input_has_register,
};
