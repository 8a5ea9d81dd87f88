ghost use Rattle.std.specs.Prelude.{◌≡◌, ◌≢◌, ◌^◌, ◌<◌, ◌≤◌, IsNone, IfSome, cond, nat_eq, ℕ, List};
ghost use Rattle.cell_core.specs.declared.moves.Side.TheVariants as sides;
ghost use Rattle.cell_core.specs.definitions.Ends.{ValueFits, JoinsOffer, Through, EndCall};

use crate::{Cell, Ends, Joined, Side, histories_by_place, one_meeting};
use java_values::Kind;
use std::marker::Model;
use std::test::Fail;

// The two ends of one channel over a sequential cell: end 0 sends and end 1 receives.
#[derive(Drop)]
struct TwoEnds {
    kind: Kind,
    cell: Cell,
}

impl Model for TwoEnds {
    ghost use Rattle.java_values.specs.declared.kind.Kind.{Kind};
    ghost use Rattle.cell_core.specs.definitions.Cells.{CellState};
    ghost use Rattle.cell_core.specs.CellEnds.{CellFits};

    ghost Value = { Kind × CellState };

    ghost view = { λ e. (e.kind, e.cell) };

    ghost invariant = { λ e. CellFits e.kind e.cell };
}

fn side_at(at: usize) -> Side
    ensures { result ≡ cond (nat_eq at 0) sides.Sender sides.Receiver }
{
    if at == 0 {
        Side::Sender
    } else {
        Side::Receiver
    }
}

impl Ends for TwoEnds {
    ghost use Rattle.std.specs.Prelude.{◌≡◌, cond, nat_eq};
    ghost use Rattle.cell_core.specs.declared.moves.Side.TheVariants as sides;
    ghost use Rattle.cell_core.specs.definitions.Cells.{cell_step, cell_reply};
    ghost use Rattle.cell_core.specs.CellEnds.{end_of_cell};

    ghost count = { λ e. 2 };

    ghost end_at = { λ e at. end_of_cell e.0 2 (cond (nat_eq at 0) sides.Sender sides.Receiver) e.1 };

    ghost moved = { λ old at m answer new. (new.0 ≡ old.0) × (new.1 ≡ cell_step m old.1) ×
        (answer ≡ cell_reply m old.1) };

    fn recall(&mut self, at: usize) -> Option<Joined> {
        self.cell.recall(side_at(at))
    }

    fn offer(&mut self, at: usize, value: i64, stamp: u64) -> Option<Joined> {
        self.cell.offer(side_at(at), value, stamp)
    }
}

// Offers at an end, and recalls the offer where no join answers it at once.
fn offer_and_recall<E: Ends>(ends: &mut E, at: usize, value: i64, stamp: u64) -> Option<Joined>
    requires end { at < E.count ends.old }
    requires room { 2 ≤ (E.end_at ends.old at).room }
    requires standing { IsNone (E.end_at ends.old at).offer }
    requires stamp { stamp < 2 ^ 62 }
    requires value { ValueFits (E.end_at ends.old at).side (E.end_at ends.old at).kind value }
    ensures joined { IfSome result (JoinsOffer (E.end_at ends.old at) value stamp) }
    ensures free { IsNone (E.end_at ends.new at).offer }
    ensures others { (q : ℕ) → q < E.count ends.old → q ≢ at →
        E.end_at ends.new q ≡ E.end_at ends.old q }
    ensures calls { (calls : List EndCall) × Through E.moved ends.old calls ends.new }
{
    let at_once = ends.offer(at, value, stamp);
    match at_once {
        Some(joined) => Some(joined),
        None => ends.recall(at),
    }
}

#[test]
fn a_send_and_a_receive_meet(rt: HostRuntime) -> Result<(), Fail> {
    let mut cell = Cell::new();
    assert!(rt; cell.offer(Side::Sender, 7, 3).is_none());
    assert!(rt; cell.standing(Side::Sender));
    let received = cell.offer(Side::Receiver, 0, 5);
    let at_receiver = Joined {
        value: 7,
        mine: 5,
        theirs: 3,
    };
    assert_eq!(rt; received, Some(at_receiver));
    assert!(rt; !cell.standing(Side::Receiver));
    assert!(rt; cell.standing(Side::Sender));
    let at_sender = Joined {
        value: 7,
        mine: 3,
        theirs: 5,
    };
    assert_eq!(rt; cell.recall(Side::Sender), Some(at_sender));
    assert!(rt; !cell.standing(Side::Sender));
    one_meeting(7, 3, 5);
    histories_by_place();
    Ok(())
}

#[test]
fn a_recalled_offer_is_not_taken(rt: HostRuntime) -> Result<(), Fail> {
    let mut cell = Cell::new();
    assert!(rt; cell.offer(Side::Receiver, 0, 2).is_none());
    assert!(rt; cell.recall(Side::Receiver).is_none());
    assert!(rt; cell.offer(Side::Sender, -1, 4).is_none());
    assert!(rt; cell.standing(Side::Sender));
    assert!(rt; !cell.standing(Side::Receiver));
    Ok(())
}

#[test]
fn a_taken_offer_is_not_taken_again(rt: HostRuntime) -> Result<(), Fail> {
    let mut cell = Cell::new();
    assert!(rt; cell.offer(Side::Receiver, 0, 2).is_none());
    assert!(rt; cell.offer(Side::Sender, -9, 4).is_some());
    assert!(rt; cell.offer(Side::Sender, 8, 6).is_none());
    let joined = Joined {
        value: -9,
        mine: 2,
        theirs: 4,
    };
    assert_eq!(rt; cell.recall(Side::Receiver), Some(joined));
    assert!(rt; cell.recall(Side::Sender).is_none());
    Ok(())
}

#[test]
fn two_ends_meet(rt: HostRuntime) -> Result<(), Fail> {
    let mut ends = TwoEnds {
        kind: Kind::Byte,
        cell: Cell::new(),
    };
    assert!(rt; offer_and_recall(&mut ends, 0, -128, 1).is_none());
    assert!(rt; ends.offer(1, 0, 2).is_none());
    let joined = Joined {
        value: 127,
        mine: 3,
        theirs: 2,
    };
    assert_eq!(rt; offer_and_recall(&mut ends, 0, 127, 3), Some(joined));
    Ok(())
}
