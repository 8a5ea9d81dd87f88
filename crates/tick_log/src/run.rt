use crate::history::History;
use crate::log::Log;

/// The logs of all domains and the histories of all channels, each by rising number.
#[derive(Drop)]
pub struct Run {
    pub domains: Vec<Log>,
    pub channels: Vec<History>,
}
