//! Expressions and tests by their grammar: the longest run of tokens that begins one, and its tree.
#![tactic(auto)]

pub mod expression;
pub mod head;
mod parse;
pub mod read;
pub mod test_parser;
pub mod tree;

pub use parse::{ExprRead, ParseError, TestRead, expr, place_of, test};

#[cfg(test)]
mod tests;
