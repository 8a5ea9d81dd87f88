// Laws. Their functions do nothing.

pub mod rounds;
pub mod runs;
pub mod steps;
