//! Programs by their grammar: the tree that tokens are, or the first token that can't stand where it does.
#![tactic(auto)]

mod block;
mod leaf;
mod make;
mod parser;
mod pieces;
mod ports;
mod program;
mod values;

pub use expr_parser::ParseError;
pub use parser::parse;

#[cfg(test)]
mod tests;
