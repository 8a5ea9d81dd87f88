//! Accepted sources: the system of a source that keeps the language's rules, or the first reason why it has none.
#![tactic(auto)]

mod domains;
mod laws;
mod lists;
mod loops;
mod program;
mod refusal;
mod rows;
mod rules;
mod source;
mod statements;
mod tables;

pub use laws::{
    accepted_sources_are_not_refused, sources_are_one_program, sources_are_one_tree,
    sources_have_one_refusal,
};
pub use refusal::{AcceptError, Refusal};
pub use rows::{deep_sources, misnamed_sources, small_refusals, small_sources, unaccepted_sources};
pub use source::{MOST_SOURCE_BYTES, accept};

#[cfg(test)]
mod kind_tests;
#[cfg(test)]
mod tests;
