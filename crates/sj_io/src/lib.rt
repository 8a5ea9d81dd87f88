//! The outside: named files that are read, a sink that is written, and both with their faults
//! counted, so that a contract can say that a fault is answered only where one happened.
#![tactic(auto)]

mod files;
mod gathered;
mod host;
mod memory;
mod sink;
mod whole;

pub use files::{Failed, Files};
pub use gathered::Gathered;
pub use host::{HostFiles, HostName, HostSink};
pub use memory::{MemFile, MemFiles, MemSink};
pub use sink::Sink;
pub use whole::{ReadError, WriteError, read_all, write_all};

#[cfg(test)]
mod tests;
