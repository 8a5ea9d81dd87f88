//! Compiled domains and their step.

pub mod domain;
#[cfg(test)]
mod domain_tests;
pub mod end_state;
pub mod ends_calls;
pub mod ends_of;
pub mod join_lists;
pub mod opening;
pub mod outcome;
pub mod parts;
