// What one seat does with both lists.

ghost use Rattle.std.specs.Prelude.{◌≡◌, ◌+◌, ◌<◌, true, length};
ghost use Rattle.cell_core.specs.definitions.Histories.{IsCellHistory};
ghost use Rattle.cell_core.specs.declared.moves.Side.TheVariants as sides;
ghost use Rattle.cell_core.specs.declared.moves.CellMove.TheVariants as moves;
ghost use Rattle.channel_cell.specs.Tallies.{most};
ghost use Rattle.channel_cell.specs.Lanes.{IsOwn};
ghost use Rattle.channel_cell.specs.Rule.{stamp_read};
ghost use Rattle.channel_cell.specs.Calls.{IsJoined, MovedBoth, DoneBoth, held, tally_of, Is, IsValue};

use crate::control::{lowered, other_counter};
use crate::rule::{Learns, LoadsBoth, RecallsReceiver, RecallsSender};
use crate::steps::{CONTROL, EndSeat, Words, stamp_word, value_word};
use cell_core::{Joined, Side};

// Whether the offer was taken.
fn recall_sender(words: &Words, seat: &mut EndSeat, joins: u64) -> bool
    requires joined { IsJoined words.now.shared.table_id seat.old.table_id seat.old.me }
    requires joins { joins ≡ (tally_of sides.Sender seat.old.me).joins }
    requires up { (tally_of sides.Sender seat.old.me).standing ≡ true }
    requires room { length (held sides.Sender seat.old.me).moves < most }
    ensures seat { seat.new.table_id ≡ seat.old.table_id }
    ensures moved { MovedBoth sides.Sender seat.old.me (moves.Recall sides.Sender)
        (tally_of sides.Sender seat.old.me).value (tally_of sides.Sender seat.old.me).stamp
        result seat.new.me }
{
    let goal = 2 * joins + 1;
    let step = lowered(Side::Sender);
    let found = words.shared.fetch_add::<RecallsSender>(seat, CONTROL, step);
    other_counter(Side::Sender, found) >= goal
}

// Whether the offer was taken.
fn recall_receiver(words: &Words, seat: &mut EndSeat, joins: u64) -> bool
    requires joined { IsJoined words.now.shared.table_id seat.old.table_id seat.old.me }
    requires joins { joins ≡ (tally_of sides.Receiver seat.old.me).joins }
    requires up { (tally_of sides.Receiver seat.old.me).standing ≡ true }
    requires room { length (held sides.Receiver seat.old.me).moves < most }
    ensures seat { seat.new.table_id ≡ seat.old.table_id }
    ensures moved { MovedBoth sides.Receiver seat.old.me (moves.Recall sides.Receiver)
        (tally_of sides.Receiver seat.old.me).value (tally_of sides.Receiver seat.old.me).stamp
        result seat.new.me }
{
    let goal = 2 * joins + 1;
    let step = lowered(Side::Receiver);
    let found = words
        .shared
        .fetch_add::<RecallsReceiver>(seat, CONTROL, step);
    other_counter(Side::Receiver, found) >= goal
}

fn recall_one(words: &Words, seat: &mut EndSeat, side: Side, joins: u64) -> bool
    requires joined { IsJoined words.now.shared.table_id seat.old.table_id seat.old.me }
    requires joins { joins ≡ (tally_of side seat.old.me).joins }
    requires up { (tally_of side seat.old.me).standing ≡ true }
    requires room { length (held side seat.old.me).moves < most }
    ensures seat { seat.new.table_id ≡ seat.old.table_id }
    ensures moved { MovedBoth side seat.old.me (moves.Recall side)
        (tally_of side seat.old.me).value (tally_of side seat.old.me).stamp
        result seat.new.me }
{
    match side {
        Side::Sender => recall_sender(words, seat, joins),
        Side::Receiver => recall_receiver(words, seat, joins),
    }
}

fn read_stamp(words: &Words, seat: &mut EndSeat, side: Side, join: u64) -> u64
    requires joined { IsJoined words.now.shared.table_id seat.old.table_id seat.old.me }
    requires joins { (tally_of side seat.old.me).joins ≡ join + 1 }
    ensures same { (seat.new.table_id ≡ seat.old.table_id) × (seat.new.me ≡ seat.old.me) }
    ensures read { stamp_read (tally_of side seat.old.me).last result }
{
    let word = stamp_word(side.other(), join);
    words.shared.load::<LoadsBoth>(seat, word)
}

fn read_value(words: &Words, seat: &mut EndSeat, join: u64) -> i64
    requires joined { IsJoined words.now.shared.table_id seat.old.table_id seat.old.me }
    requires joins { (tally_of sides.Receiver seat.old.me).joins ≡ join + 1 }
    ensures same { (seat.new.table_id ≡ seat.old.table_id) × (seat.new.me ≡ seat.old.me) }
    ensures read { IsValue (tally_of sides.Receiver seat.old.me).last result }
{
    let word = value_word(join);
    words.shared.load::<LoadsBoth>(seat, word).cast_signed()
}

fn read_join(
    words: &Words,
    seat: &mut EndSeat,
    side: Side,
    join: u64,
    value: i64,
    stamp: u64,
) -> Joined
    requires joined { IsJoined words.now.shared.table_id seat.old.table_id seat.old.me }
    requires joins { (tally_of side seat.old.me).joins ≡ join + 1 }
    requires own { IsOwn side (tally_of side seat.old.me).last value stamp }
    ensures same { (seat.new.table_id ≡ seat.old.table_id) × (seat.new.me ≡ seat.old.me) }
    ensures read { Is (tally_of side seat.old.me).last result }
{
    let theirs = read_stamp(words, seat, side, join);
    match side {
        Side::Sender => Joined {
            value,
            mine: stamp,
            theirs,
        },
        Side::Receiver => Joined {
            value: read_value(words, seat, join),
            mine: stamp,
            theirs,
        },
    }
}

// Recalls the standing offer of one side.
pub fn settle_one(
    words: &Words,
    seat: &mut EndSeat,
    side: Side,
    joins: u64,
    value: i64,
    stamp: u64,
) -> Option<Joined>
    requires joined { IsJoined words.now.shared.table_id seat.old.table_id seat.old.me }
    requires joins { joins ≡ (tally_of side seat.old.me).joins }
    requires up { (tally_of side seat.old.me).standing ≡ true }
    requires value { value ≡ (tally_of side seat.old.me).value }
    requires stamp { stamp ≡ (tally_of side seat.old.me).stamp }
    requires room { length (held side seat.old.me).moves < most }
    ensures joined { IsJoined words.now.shared.table_id seat.new.table_id seat.new.me }
    ensures done { DoneBoth side seat.old.me (moves.Recall side) result seat.new.me }
{
    if recall_one(words, seat, side, joins) {
        Some(read_join(words, seat, side, joins, value, stamp))
    } else {
        None
    }
}

// Tells that both lists are a legal history.
pub fn learn(words: &Words, seat: &mut EndSeat)
    requires joined { IsJoined words.now.shared.table_id seat.old.table_id seat.old.me }
    ensures { IsCellHistory (held sides.Sender seat.old.me).moves
        (held sides.Receiver seat.old.me).moves }
{
    words.shared.load::<Learns>(seat, CONTROL);
}
