//! The numbers that a domain keeps from tick to tick, and the numbers that are handed in from outside.
#![tactic(auto)]

mod inputs;
mod laws;
mod store;

pub use inputs::Inputs;
pub use laws::threads_share_inputs;
pub use store::Store;

#[cfg(test)]
mod tests;
