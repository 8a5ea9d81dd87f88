/// The wires that tell the outcome of a tick.
#[derive(Drop)]
pub struct Layout {
    /// For each interface signal, in order of declaration, whether it is present.
    pub present: Vec<u32>,
    /// For each interface signal its value, which is the constant 0 for a pure one.
    pub value: Vec<u32>,
    /// For each register its next number.
    pub next: Vec<u32>,
    /// For each end, in order, whether it waits.
    pub waits: Vec<u32>,
    /// For each sending end the sent value.
    pub sends: Vec<u32>,
    /// Whether the domain pauses.
    pub paused: u32,
}
