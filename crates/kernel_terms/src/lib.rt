//! The statements of the kernel language, the tables of names and the systems made of them.
#![tactic(auto)]

pub mod expr;
mod laws;
mod limits;
mod rows;
pub mod sig_test;
mod system;
pub mod tables;
pub mod term;

pub use expr::{Expr, ExprForm};
pub use laws::threads_share_systems;
pub use limits::{MOST_CHANNELS, MOST_DOMAINS, MOST_SIGNALS, MOST_VARIABLES};
pub use rows::{
    bodies_begin_anew, divisors_are_literals, forms_keep_their_parts, forms_without_parts_stay,
    nodes_keep_their_kinds, parts_nest_to_the_right, tests_keep_their_parts,
};
pub use sig_test::SigTest;
pub use system::System;
pub use tables::{ChannelInfo, Combine, SignalInfo, Sort, Tables, VariableInfo};
pub use term::{Form, Term};

#[cfg(test)]
mod tests;
