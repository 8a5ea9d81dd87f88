//! The kinds of expressions: a tree whose expressions have kinds, or the first thing that is wrong with them.
#![tactic(auto)]

mod conversions;
mod expressions;
mod failure;
mod fit_rows;
mod laws;
mod lists;
mod operand;
mod operators;
mod ports;
mod rows;
mod statements;
mod table_copies;
mod tables;
mod test_copies;
mod trees;
mod typing;

pub use failure::{TypeError, TypeFailure};
pub use fit_rows::{
    small_combinations, small_expressions, small_kinds, small_operands, small_signal_names,
};
pub use laws::{declared_signals, fitting_combinations, fitting_kinds};
pub use rows::{small_conversions, small_operators, small_signals};
pub use trees::Typed;
pub use typing::typed;
