//! Ticks of small statements, worked out: each statement has these, and no others.

mod aborts;
mod codes;
mod domains;
mod ends;
mod exits;
mod locals;
mod readings;
mod registers;
mod variables;
mod ways;

pub use aborts::{
    abort_ends_waiting_send, abort_ends_with_its_body, abort_is_armed_after_its_start,
    aborted_body_assigns, immediate_abort_is_armed_at_once, new_start_is_not_armed,
    new_start_of_immediate_abort_is_armed, suspend_is_armed_after_its_start,
};
pub use codes::{
    code_above_exits_stays, exit_ends_pausing_branch, exit_passes_through,
    later_exit_passes_through, outer_exit_counts, outer_exit_is_lowered,
    parallel_ends_with_its_last_branch, trap_ends_at_its_exit,
};
pub use domains::{
    absent_input_keeps_its_value, absent_output_keeps_its_value, coherence_decides,
    last_value_is_not_combined, legal_tick_counts, legal_tick_reads_state, log_shows_own_signals,
    output_is_present_where_emitted, some_domains_make_no_tick,
};
pub use ends::{completed_ends_go_on, send_and_receive_wait, send_computes_at_once};
pub use exits::{
    choice_exits_with_its_branch, every_exit_ends_parallel, every_exit_passes_as_it_is,
    exit_keeps_emissions_and_variables, later_code_above_exits_passes_through,
    later_exit_keeps_emissions_and_variables,
};
pub use locals::{
    exit_leaves_local, local_coherence_decides, local_combines_emissions, local_hands_on_variables,
    local_is_present_where_emitted, local_keeps_its_last_value, locals_are_apart,
    suspended_local_keeps_its_value,
};
pub use readings::{
    emissions_are_combined, emissions_are_told_apart, expressions_have_values,
    long_emissions_are_combined, operands_have_kinds, operators_have_their_values,
    statements_read_the_tick, statuses_are_as_given, tests_look_at_presence,
};
pub use registers::{
    each_form_has_registers_of_parts, registers_fit, registers_hold_values, registers_refused,
    registers_stand_for_statement, registers_stand_in_order, second_part_has_later_registers,
    valued_input_has_register,
};
pub use variables::{
    body_hands_on_variables, branches_read_old_variables, each_form_mentions_what_it_names,
    ended_branch_keeps_its_variables, ended_branch_shares_a_variable, endless_turn_has_no_tick,
    if_takes_one_branch, loop_begins_anew, operands_are_read, parallel_joins_variables,
    pausing_body_hands_on_variables, present_takes_one_branch, sequence_hands_on_variables,
    sequence_waits_for_its_first_part, statement_assigns_what_it_names,
    statement_has_divisors_of_its_parts, statement_mentions_what_it_names,
};
pub use ways::{loops_of_each_form_wait, shape_tells_ends, shape_tells_exits};
