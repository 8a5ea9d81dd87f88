use sj_lexer::Token;

/// What was read, and the tokens behind it.
#[derive(Drop)]
pub struct Read<'a, T> {
    pub value: T,
    pub rest: &'a [Token],
}

/// A tree, and how many operators its expression or test has so far.
#[derive(Drop)]
pub struct Counted<T> {
    pub tree: T,
    pub operators: u32,
}

/// The tokens from the one on that can't be read.
#[derive(Clone, Copy)]
pub enum Stop<'a> {
    Syntax(&'a [Token]),
    TooDeep(&'a [Token]),
    NoMemory,
}
