use crate::formula::Formula;

/// A wire, by its number, and its formula.
#[derive(Clone, Copy, Debug, PartialEq, Eq)]
pub struct Equation {
    pub wire: u32,
    pub formula: Formula,
}
