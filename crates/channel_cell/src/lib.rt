//! The two ends of a channel between running threads: the rendezvous cell on seven atomic words, with no
//! lock and no retry.
#![tactic(auto)]

mod channel;
mod control;
mod ends;
mod joined;
mod rule;
mod steps;

pub use channel::{Channel, ReceiverEnd, SenderEnd, Settled, settle};

#[cfg(test)]
mod tests;
