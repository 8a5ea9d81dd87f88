/// How many wires two counters gave: one from 0 on, and one from 2^31 on.
#[derive(Clone, Copy, Debug, Drop, PartialEq, Eq)]
pub struct WireCounts {
    pub low: u32,
    pub high: u32,
}
