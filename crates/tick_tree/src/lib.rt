//! The trees of a tick: which copies of statements it may pass, and in which order they stand.
#![tactic(auto)]

mod laws;
mod measure;
mod nodes;
mod parts;
mod rows;

pub use laws::{
    counts_are_those_without_places, interface_signals_come_before_copies,
    leaves_are_numbered_from_the_left, leaves_have_places, places_change_no_tree,
    program_exits_fit, resuming_trees_where_something_resumes, system_exits_fit,
    weights_are_those_without_places,
};
pub use measure::{ends0, ends1, weight};
pub use parts::{
    first_part_fits, if_parts_fit, parallel_parts_fit, present_parts_fit, sequence_parts_fit,
};
pub use rows::{
    alternatives_have_no_order, branches_that_see_each_other, emission_beside_its_test,
    emission_precedes_itself, emission_precedes_reads_in_other_branches, emissions_do_not_resume,
    immediate_abort_sees_own_emission, immediate_weak_abort_sees_own_emission, joints_of_trees,
    leaves_read_their_expressions, new_copy_of_local_each_turn, nothing_starts_behind_endless_part,
    resumed_sequence, resumed_tests_see_own_emission, self_causing_signal, term_with_places,
    weight_of_a_send, weights_of_tests,
};

#[cfg(test)]
mod tests;
