//! Logs of ticks, histories of channels, runs and their text.
#![tactic(auto)]

mod history;
mod log;
mod printer;
mod run;
#[cfg(test)]
mod tests;
mod text;

pub use history::{History, JoinRow};
pub use log::Log;
pub use run::Run;
pub use text::print;
