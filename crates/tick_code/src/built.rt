use crate::code::Code;
use crate::end_place::EndPlace;
use crate::layout::Layout;
use java_values::Kind;

/// The code of one tick of a domain.
#[derive(Drop)]
pub struct Built {
    pub code: Code,
    pub layout: Layout,
    /// The kind of each register.
    pub registers: Vec<Kind>,
    /// One row for each `send` and `receive` of the statement.
    pub places: Vec<EndPlace>,
    /// For each receiving channel, by its number, the register of its last value.
    pub last: Vec<u32>,
}
