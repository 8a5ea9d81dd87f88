use cell_core::{Joined, Side};

/// An end of a channel.
#[derive(Clone, Copy, Debug, Drop, PartialEq, Eq)]
pub struct EndOf {
    pub channel: u32,
    pub side: Side,
}

/// A join at an end, and how many ticks the end's domain had made.
#[derive(Clone, Copy, Debug, Drop, PartialEq, Eq)]
pub struct EndJoin {
    pub joined: Joined,
    pub ticks: u32,
}
