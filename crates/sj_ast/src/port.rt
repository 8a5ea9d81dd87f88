use java_values::Kind;

/// How the emissions of one tick are combined.
#[derive(Clone, Copy, Debug, PartialEq, Eq)]
pub enum CombineOperator {
    /// `+`
    Add,
    /// `max`
    Max,
    /// `min`
    Min,
    /// `&`
    And,
    /// `|`
    Or,
    /// `^`
    Xor,
}

/// `combine` and an operator, with the operator's place.
#[derive(Clone, Copy, Debug, PartialEq, Eq)]
pub struct Combination {
    pub at: u32,
    pub operator: CombineOperator,
}

/// The kind of a valued signal, and how its emissions are combined where that is written.
#[derive(Clone, Copy, Debug, PartialEq, Eq)]
pub struct Valued {
    pub kind: Kind,
    pub combine: Option<Combination>,
}

/// A signal's declaration, with the place of the name. A pure signal has no kind.
#[derive(Debug, Drop)]
pub struct Signal<N> {
    pub at: u32,
    pub name: N,
    pub valued: Option<Valued>,
}

#[derive(Clone, Copy, Debug, PartialEq, Eq)]
pub enum Direction {
    Input,
    Output,
}

#[derive(Debug, Drop)]
pub struct SignalPort<N> {
    pub direction: Direction,
    pub signal: Signal<N>,
}

/// A channel's declaration, with the place of the name.
#[derive(Debug, Drop)]
pub struct ChannelPort<N> {
    pub kind: Kind,
    pub at: u32,
    pub name: N,
}

/// A declaration in the interface.
#[derive(Debug, Drop)]
pub enum Port<N> {
    Signal(SignalPort<N>),
    Channel(ChannelPort<N>),
}
