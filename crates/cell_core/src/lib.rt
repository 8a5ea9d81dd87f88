//! The sequential rendezvous cell of a channel, its legal histories, and the trait of the ends that a
//! domain moves.
#![tactic(auto)]

mod cell;
mod ends;
mod laws;
mod moves;

pub use cell::Cell;
pub use ends::Ends;
pub use laws::{histories_by_place, one_meeting};
pub use moves::{CellMove, Entry, Joined, Side};

#[cfg(test)]
mod tests;
