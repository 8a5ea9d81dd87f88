//! Equations over wires, and the values that satisfy them.
#![tactic(auto)]

mod equation;
mod formula;
mod laws;
mod numbering_laws;
mod numbering_rows;
mod rows;

pub use equation::Equation;
pub use formula::Formula;
pub use laws::ordered_equations_have_one_solution;
pub use numbering_laws::{
    numbered_equations_are_ordered, numbered_equations_say_no_less, renamed_equations_say_no_more,
    wires_given_once_have_a_numbering,
};
pub use numbering_rows::{numbers_by_place, reads_of_given_wires, renamed_wires, wires_given_once};
pub use rows::{
    casts_of_wires, choices_of_wires, numbers_and_places, operators_on_one_wire,
    operators_on_two_wires, ordered_equations, truth_of_numbers, values_that_satisfy,
};
