//! The tokens of a source: words, literals and signs, with white space and comments between them.
#![tactic(auto)]

mod characters;
mod head;
mod laws;
mod lexer;
mod numbers;
mod reserved_words;
mod signs;
mod token;

pub use laws::{
    longest_sign_is_taken, name_tokens_are_names, reserved_words_are_no_names,
    sources_have_one_reading,
};
pub use lexer::{LexError, lex};
pub use token::{Class, Mark, Token, Word};

#[cfg(test)]
mod tests;
