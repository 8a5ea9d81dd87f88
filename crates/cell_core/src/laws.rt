// Laws of the definitions. Their functions do nothing.

ghost use Rattle.std.specs.Prelude.{[], ◌∷◌, Some, None, pos, List, ◌↔◌};
ghost use Rattle.cell_core.specs.declared.moves.Entry.{Entry};
ghost use Rattle.cell_core.specs.declared.moves.CellMove.TheVariants as moves;
ghost use Rattle.cell_core.specs.declared.moves.Side.TheVariants as sides;
ghost use Rattle.cell_core.specs.definitions.Histories.{entry, IsCellHistory, RunsByPlace};

/// A send and a receive meet: the sender offers, the receiver joins the offer, and the sender finds the
/// join at its recall. Each side has the sent value, its own stamp and the other's.
pub fn one_meeting(value: i64, sent: u64, received: u64)
    ensures { IsCellHistory
        (entry 0 (moves.Offer sides.Sender value sent) None
        ∷ entry 2 (moves.Recall sides.Sender)
        (Some (record { value = value; mine = sent; theirs = received })) ∷ [])
        (entry 1 (moves.Offer sides.Receiver (pos 0) received)
        (Some (record { value = value; mine = received; theirs = sent })) ∷ []) }
{}

/// Two lists of entries are a legal history exactly where they can be merged by place, each place from
/// 0 on standing once, to moves of a cell from two empty sides with the cell's replies.
pub fn histories_by_place()
    ensures { (sender receiver : List Entry) →
        IsCellHistory sender receiver ↔ RunsByPlace sender receiver }
{}
