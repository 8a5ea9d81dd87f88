/// How many clock domains a system may have.
pub const MOST_DOMAINS: usize = 16;

/// How many channels a system may have.
pub const MOST_CHANNELS: usize = 64;

/// How many signals a domain may have, interface and local.
pub const MOST_SIGNALS: usize = 1024;

/// How many variables a domain may have.
pub const MOST_VARIABLES: usize = 1024;
