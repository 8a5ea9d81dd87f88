ghost use Rattle.std.specs.Prelude.{◌≡◌, slice_index};

/// The wires that expressions and tests read, by the numbers of variables, of signals (for presence
/// and for value) and of channels (for the last value).
#[derive(Drop)]
pub struct WireTables {
    pub variables: Vec<u32>,
    pub present: Vec<u32>,
    pub value: Vec<u32>,
    pub last: Vec<u32>,
}

/// The wire at this number; a number past the table's end has wire 0.
pub fn wire_at(table: &[u32], number: u32) -> u32
    ensures { result ≡ slice_index table.now number }
{
    match table.get(number as usize) {
        Some(wire) => *wire,
        None => 0,
    }
}
