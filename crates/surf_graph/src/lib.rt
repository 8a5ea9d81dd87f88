//! The equations of a copy of a statement, and those of its starting tick: they tell a tick of the
//! rules. What builds the operations of expressions and of statuses.
#![tactic(auto)]

mod builder;
mod change;
mod copy_builder;
mod domain_formulas;
mod domain_laws;
mod domain_statuses;
mod emissions;
mod expression;
mod formulas;
mod kind_laws;
mod laws;
mod places;
mod registers;
mod rows;
mod spelling;
mod starting;
mod starting_leaves;
mod statuses;
mod variables;
mod wire_tables;

pub use builder::{Builder, FIRST_FURTHER};
pub use change::Change;
pub use copy_builder::{CopyBuilder, Given, Guarded, Made, add_guarded, change_wire};
pub use domain_formulas::{give_combined, give_or, give_place, give_same, give_zero};
pub use domain_laws::{
    end_wires_tell_offers, starting_codes_tell_ticks, starting_domains_tell_ticks,
};
pub use domain_statuses::{StatusPlaces, StatusWires, give_statuses};
pub use emissions::{Emitted, add_conditions, add_emissions, add_status};
pub use expression::{test, value};
pub use formulas::{
    give_and, give_choice, give_code, give_constant, give_emitted, give_greater, give_is_status,
    give_value,
};
pub use kind_laws::{
    fitting_entries_combine, operations_are_well_kinded, operations_of_formulas_are_well_kinded,
    spelled_equations_are_well_kinded, starting_copies_are_well_kinded,
    starting_domains_are_well_kinded,
};
pub use laws::{
    starting_copies_tell_ticks, starting_operations_tell_ticks, starting_ticks_are_told,
    starting_ticks_are_told_by_operations,
};
pub use places::read_places;
pub use registers::{add_register, add_registers};
pub use rows::{
    constant_divisors, scattered_operations, starting_domain, starting_emission,
    starting_operations, starting_parallel, starting_pause, starting_sequence,
};
pub use spelling::{
    equations_are_spelled_one_by_one, equations_stay_spelled,
    expressions_on_wires_have_their_values, spelled_equations_hold, spelled_equations_say_the_same,
    written_equations_are_spelled,
};
pub use starting::start;
pub use statuses::{add_combined, give_status, give_trap, give_weak_abort};
pub use variables::{join, set_wire, undo};
pub use wire_tables::WireTables;

#[cfg(test)]
mod domain_tests;
#[cfg(test)]
mod tests;
