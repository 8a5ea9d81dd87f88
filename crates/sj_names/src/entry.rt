/// What a number in an expression names: the entry of the tables with that number, of this sort.
#[derive(Clone, Copy, Debug, PartialEq, Eq)]
pub enum TableEntry {
    Signal(u32),
    Channel(u32),
    Variable(u32),
}
