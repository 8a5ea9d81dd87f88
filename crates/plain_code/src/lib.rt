//! Equations over wires, and their solution in one pass.
#![tactic(auto)]

mod code;
mod end_place;
mod equation;
mod formula;

pub use code::Code;
pub use end_place::EndPlace;
pub use equation::Equation;
pub use formula::Formula;

#[cfg(test)]
mod tests;
