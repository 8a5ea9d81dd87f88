//! The equations of a resuming tick of a statement: they tell a tick of what its registers stand for.
#![tactic(auto)]

mod domain_laws;
mod formulas;
mod kind_laws;
mod laws;
mod resuming_leaves;
mod resuming_loops;
mod rows;

pub use domain_laws::{resuming_codes_tell_ticks, resuming_domains_tell_ticks};
pub use formulas::{give_and_not, give_register};
pub use kind_laws::{resuming_copies_are_well_kinded, resuming_domains_are_well_kinded};
pub use laws::{
    resuming_copies_tell_ticks, resuming_operations_tell_ticks, resuming_ticks_are_told,
    resuming_ticks_are_told_by_operations,
};
pub use resuming_leaves::{resume_nothing, resume_pause, resume_receive, resume_send};
pub use resuming_loops::{close_loop, start_if};
pub use rows::{resuming_emission, resuming_loop, resuming_pause, resuming_sequence};
