/// A `send` or a `receive` of a statement: the number of its end among those of the domain, and the numbers of two
/// of its registers, of which one tells whether it waits and one whether its join has happened.
#[derive(Clone, Copy, Debug, Drop, PartialEq, Eq)]
pub struct EndPlace {
    pub which: u32,
    pub on: u32,
    pub met: u32,
}
