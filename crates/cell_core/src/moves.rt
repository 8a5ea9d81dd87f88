ghost use Rattle.std.specs.Prelude.{◌≡◌};

/// The two sides of a channel.
#[derive(Clone, Copy, Debug, Drop, PartialEq, Eq)]
pub enum Side {
    Sender,
    Receiver,
}

impl Side {
    ghost use Rattle.cell_core.specs.definitions.Cells.{other};

    /// The side across the channel.
    pub fn other(self) -> Side
        ensures { result ≡ other self }
    {
        match self {
            Side::Sender => Side::Receiver,
            Side::Receiver => Side::Sender,
        }
    }
}

/// A join as one side sees it: the sender's value, the stamp of this side's own offer and the stamp of
/// the other side's.
#[derive(Clone, Copy, Debug, Drop, PartialEq, Eq)]
pub struct Joined {
    pub value: i64,
    pub mine: u64,
    pub theirs: u64,
}

/// A move of one side. The value of a receiver's offer is ignored.
#[derive(Clone, Copy, Debug, Drop, PartialEq, Eq)]
pub enum CellMove {
    Offer { side: Side, value: i64, stamp: u64 },
    Recall { side: Side },
}

/// A move in the history of a cell: how many moves of the two sides came before it, the move, and its
/// reply.
#[derive(Clone, Copy, Debug, Drop, PartialEq, Eq)]
pub struct Entry {
    pub place: u64,
    pub what: CellMove,
    pub reply: Option<Joined>,
}
