//! Scheduled runs: the domains of a system take turns, and meet at a sequential cell per channel.
//! A plan takes all the memory, and its run takes none.
#![tactic(auto)]

mod channels;
mod links;
mod opening;
mod order;
#[cfg(test)]
mod tests;
mod turns;

pub use order::{OrderPlan, run_order};
