//! Codes: equations over wires and their solution in one pass.
#![tactic(auto)]

mod built;
mod code;
mod end_place;
mod laws;
mod layout;
mod numbering;
mod numbers;
mod operation;
mod order;
mod rows;
mod solve;
mod wire_counts;

pub use built::Built;
pub use code::Code;
pub use end_place::EndPlace;
pub use laws::{numbered_equations_are_well_kinded, solutions_lie_in_their_classes};
pub use layout::Layout;
pub use numbering::{NumberedCode, NumberingError, number_wires};
pub use numbers::Numbers;
pub use rows::{classes_of_choices, classes_of_operations, operands_of_a_kind, safe_divisors};
pub use wire_counts::WireCounts;

#[cfg(test)]
mod numbering_tests;
#[cfg(test)]
mod tests;
