//! States and steps of a system of clock domains, legal runs and the laws on them, and compiled domains.
#![tactic(auto)]

mod equations;
mod laws;
mod rows;
mod step;

pub use laws::rounds::{
    interleavings_close, interleavings_fit, moves_and_joins_grow, rounds_are_legal, rounds_grow,
};
pub use laws::runs::{
    first_ticks_have_stamp_one, joins_are_within_ticks, legal_runs_have_own_runs,
    next_stamps_are_below_limit, next_stamps_are_bounded, own_runs_are_legal,
    scheduled_runs_are_whole, stamps_are_places, stamps_have_causes, stamps_have_no_gaps,
    steps_are_legal, systems_are_fresh, systems_join_domains,
};
pub use laws::steps::{new_domains_have_no_rounds, steps_are_rounds};
pub use rows::{
    budgets_are_spent, ends_have_places_in_each_form, ends_wait_in_each_form,
    join_completes_suspended_receive, join_stays_at_abort, joins_complete_ends_in_parts,
    joins_have_the_sent_value, marks_are_of_the_domains, offer_is_withdrawn, one_rendezvous,
    one_stamp_order, rendezvous_by_rounds, smaller_number_comes_first, stamps_count_joins,
    waiting_ends_are_no_rest,
};
pub use step::domain::{CompileError, Domain, compile};
pub use step::ends_of::{EndJoin, EndOf};
pub use step::outcome::Stepped;
