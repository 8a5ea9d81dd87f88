/// What a name is declared as.
#[derive(Clone, Copy, Debug, PartialEq, Eq)]
pub enum NameSort {
    Input,
    Output,
    /// A local signal.
    Local,
    Channel,
    Variable,
    Trap,
}

/// What a visible name stands for: its sort, and its number in order of declaration. Signals of all three sorts
/// are numbered as one.
#[derive(Clone, Copy, Debug, PartialEq, Eq)]
pub struct Meaning {
    pub sort: NameSort,
    pub number: u32,
}

/// What is done where a name stands.
#[derive(Clone, Copy, Debug, PartialEq, Eq)]
pub enum Role {
    Declare(NameSort),
    /// `emit` and `sustain`
    Emit,
    Test,
    Send,
    Receive,
    /// `#`
    Status,
    Exit,
    /// An assignment, or a plain name in an expression.
    Variable,
}

/// A place where a name stands, and what it stands for there. A name that is declared stands for what it stood for
/// before.
#[derive(Clone, Copy, Debug, PartialEq, Eq)]
pub struct Mention {
    pub at: u32,
    pub role: Role,
    pub meaning: Option<Meaning>,
}

/// How many names were declared so far: signals, channels, variables, traps.
#[derive(Clone, Copy, Debug, PartialEq, Eq)]
pub struct Counts {
    pub signals: u32,
    pub channels: u32,
    pub variables: u32,
    pub traps: u32,
}

/// How a name may use an interface signal or a channel.
#[derive(Clone, Copy, Debug, PartialEq, Eq)]
pub enum Use {
    PortSignal,
    SendingEnd,
    /// By `receive` or by `#`.
    ReceivingEnd,
    Receive,
}

/// Sorts that are counted together.
#[derive(Clone, Copy, Debug, PartialEq, Eq)]
pub enum Group {
    PortSignal,
    Signal,
    Channel,
    Variable,
}
