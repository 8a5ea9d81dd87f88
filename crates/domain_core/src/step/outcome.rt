/// What a step made: a tick that paused or that ended the domain, or no tick, since it would have this
/// stamp.
#[derive(Clone, Copy, Debug, Drop, PartialEq, Eq)]
pub enum Stepped {
    Paused,
    Ended,
    StampLimit(u64),
}
