/// What is wrong with a name. At one place the first of this list counts.
#[derive(Clone, Copy, Debug, PartialEq, Eq)]
pub enum FailureKind {
    /// No name of the needed sort is visible.
    Unknown,
    /// A declared name is visible already.
    Twice,
    /// An interface signal that an earlier domain mentions.
    SignalShared,
    /// An input is emitted or sustained.
    EmitInput,
    /// A second sending or receiving domain of a channel, or one domain for both; or, where the channel is
    /// declared, no `send` or no `receive` of it.
    ChannelEnds,
    /// The 17th domain, the 65th channel, or the 1,025th signal or variable of a domain.
    TooMany,
}

/// A fault, with the byte offset of its place.
#[derive(Clone, Copy, Debug, PartialEq, Eq)]
pub struct Failure {
    pub at: u32,
    pub fault: FailureKind,
}
