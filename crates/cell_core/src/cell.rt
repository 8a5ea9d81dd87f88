ghost use Rattle.std.specs.Prelude.{◌≡◌, ◌^◌, ◌<◌, true, false};
ghost use Rattle.cell_core.specs.declared.moves.CellMove.TheVariants as moves;

use crate::moves::{Joined, Side};
use std::marker::Model;

/// What one side of a cell is.
#[derive(Clone, Copy, Debug, Drop, PartialEq, Eq)]
enum Standing {
    /// No offer stands.
    Empty,
    /// The offer stands, and nobody has taken it.
    Open { value: i64, stamp: u64 },
    /// The other side has joined the offer, and this side hasn't recalled it yet.
    Taken(Joined),
}

/// The sequential rendezvous cell. Each of its two sides offers, and later recalls an offer that stands.
/// An offer that finds the other side's open makes the join, and the other side finds it at its recall.
#[derive(Debug, Drop)]
pub struct Cell {
    sender: Standing,
    receiver: Standing,
}

impl Model for Cell {
    ghost use Rattle.cell_core.specs.definitions.Cells.{CellState};

    ghost Value = { CellState };

    ghost view = { λ c. record { sender = c.sender; receiver = c.receiver } };
}

// The join as the other side sees it.
fn turned(join: Joined) -> Joined
    ensures { result ≡ record { value = join.value; mine = join.theirs; theirs = join.mine } }
{
    Joined {
        value: join.value,
        mine: join.theirs,
        theirs: join.mine,
    }
}

impl Cell {
    ghost use Rattle.cell_core.specs.definitions.Cells.{cell_step, cell_reply, cell_of, other, standing_at, stands, empty_cell};

    /// A cell at which neither side stands.
    pub fn new() -> Cell
        ensures { result ≡ empty_cell }
    {
        Cell {
            sender: Standing::Empty,
            receiver: Standing::Empty,
        }
    }

    fn side(&self, side: Side) -> Standing
        ensures { result ≡ standing_at side self.now }
    {
        match side {
            Side::Sender => self.sender,
            Side::Receiver => self.receiver,
        }
    }

    fn put(&mut self, side: Side, standing: Standing)
        ensures { self.new ≡ cell_of side standing (standing_at (other side) self.old) }
    {
        match side {
            Side::Sender => self.sender = standing,
            Side::Receiver => self.receiver = standing,
        }
    }

    /// Whether that side's offer stands: it was made, no join answered it at once, and it wasn't
    /// recalled. It stands on after the other side has taken it.
    pub fn standing(&self, side: Side) -> bool
        ensures { result ≡ stands (standing_at side self.now) }
    {
        self.side(side) != Standing::Empty
    }

    /// Offers at a side that doesn't stand, with a stamp below 2^62. A receiver's value is ignored. The
    /// answer is the join exactly where the other side's offer stands and isn't taken, and that offer is
    /// taken then. Otherwise this offer stands.
    pub fn offer(&mut self, side: Side, value: i64, stamp: u64) -> Option<Joined>
        requires standing { stands (standing_at side self.old) ≡ false }
        requires stamp { stamp < 2 ^ 62 }
        ensures cell { self.new ≡ cell_step (moves.Offer side value stamp) self.old }
        ensures reply { result ≡ cell_reply (moves.Offer side value stamp) self.old }
    {
        let Standing::Open {
            value: sent,
            stamp: theirs,
        } = self.side(side.other())
        else {
            self.put(side, Standing::Open { value, stamp });
            return None;
        };
        let join = Joined {
            value: match side {
                Side::Sender => value,
                Side::Receiver => sent,
            },
            mine: stamp,
            theirs,
        };
        self.put(side.other(), Standing::Taken(turned(join)));
        Some(join)
    }

    /// Recalls an offer that stands. The answer is the join exactly where the other side has taken the
    /// offer. Otherwise the offer is withdrawn. Either way the side doesn't stand afterwards.
    pub fn recall(&mut self, side: Side) -> Option<Joined>
        requires { stands (standing_at side self.old) ≡ true }
        ensures cell { self.new ≡ cell_step (moves.Recall side) self.old }
        ensures reply { result ≡ cell_reply (moves.Recall side) self.old }
    {
        let mine = self.side(side);
        self.put(side, Standing::Empty);
        match mine {
            Standing::Taken(joined) => Some(joined),
            _ => None,
        }
    }
}
