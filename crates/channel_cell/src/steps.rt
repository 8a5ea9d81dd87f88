// The atomic steps of an end, each with what it means to the seat that makes it.

ghost use Rattle.std.specs.Prelude.{◌≡◌, ◌+◌, ◌<◌, true, false, length};
ghost use Rattle.cell_core.specs.CellEnds.{OfferFits};
ghost use Rattle.cell_core.specs.declared.moves.Side.TheVariants as sides;
ghost use Rattle.cell_core.specs.declared.moves.CellMove.TheVariants as moves;
ghost use Rattle.channel_cell.specs.Tallies.{most};
ghost use Rattle.channel_cell.specs.Lanes.{value_lane, stamp_lane, IsOwn};
ghost use Rattle.channel_cell.specs.Rule.{knows_in, stamp_read};
ghost use Rattle.channel_cell.specs.Calls.{kind_in, moves_in, tally_in, value_to_offer};
ghost use Rattle.channel_cell.specs.Calls.{stamp_to_offer, noting, IsSeated, Moved, Done, Is, IsValue};

use crate::control::{lowered, other_counter, raised};
use crate::rule::{
    ChannelRule, LoadsStamp, LoadsValue, Offers, Recalls, StoresStamp, StoresValue, View,
};
use atomic_table::{Seat, Table};
use cell_core::{Joined, Side};
use java_values::Kind;
use std::alloc::Global;

pub type Words = Table<(), View, Kind, ChannelRule, Global>;

pub type EndSeat = Seat<(), View>;

// The control word, and the first words of the lanes.
pub const CONTROL: usize = 0;

const VALUE_LANES: usize = 1;

const SENDER_LANES: usize = 3;

const RECEIVER_LANES: usize = 5;

pub fn value_word(join: u64) -> usize
    ensures { (result ≡ value_lane join) × (result < 7) }
{
    VALUE_LANES + (join % 2) as usize
}

pub fn stamp_word(side: Side, join: u64) -> usize
    ensures { (result ≡ stamp_lane side join) × (result < 7) }
{
    match side {
        Side::Sender => SENDER_LANES + (join % 2) as usize,
        Side::Receiver => RECEIVER_LANES + (join % 2) as usize,
    }
}

pub fn put_value(words: &Words, seat: &mut EndSeat, joins: u64, value: i64)
    requires seated { IsSeated words.now.shared.table_id seat.old.table_id sides.Sender seat.old.me }
    requires joins { joins ≡ (tally_in seat.old.me).joins }
    requires down { (tally_in seat.old.me).standing ≡ false }
    ensures { (seat.new.table_id ≡ seat.old.table_id) × (seat.new.me ≡
        noting sides.Sender seat.old.me value (stamp_to_offer seat.old.me)) }
{
    let word = value_word(joins);
    words
        .shared
        .store::<StoresValue>(seat, word, value.cast_unsigned());
}

pub fn put_stamp(words: &Words, seat: &mut EndSeat, side: Side, joins: u64, stamp: u64)
    requires seated { IsSeated words.now.shared.table_id seat.old.table_id side seat.old.me }
    requires joins { joins ≡ (tally_in seat.old.me).joins }
    requires down { (tally_in seat.old.me).standing ≡ false }
    ensures { (seat.new.table_id ≡ seat.old.table_id) × (seat.new.me ≡
        noting side seat.old.me (knows_in seat.old.me.0).value stamp) }
{
    let word = stamp_word(side, joins);
    words.shared.store::<StoresStamp>(seat, word, stamp);
}

// Whether it joins at once.
fn make_offer(words: &Words, seat: &mut EndSeat, side: Side, joins: u64, counter: u64) -> bool
    requires seated { IsSeated words.now.shared.table_id seat.old.table_id side seat.old.me }
    requires joins { joins ≡ (tally_in seat.old.me).joins }
    requires counter { counter ≡ (tally_in seat.old.me).counter }
    requires down { (tally_in seat.old.me).standing ≡ false }
    requires fits { OfferFits (kind_in seat.old.me) side (value_to_offer side seat.old.me)
        (stamp_to_offer seat.old.me) }
    requires room { length (moves_in seat.old.me) < most }
    ensures seat { seat.new.table_id ≡ seat.old.table_id }
    ensures moved { Moved side (knows_in seat.old.me.0)
        (moves.Offer side (value_to_offer side seat.old.me) (stamp_to_offer seat.old.me))
        (value_to_offer side seat.old.me) (stamp_to_offer seat.old.me) result seat.new.me }
{
    let goal = 2 * joins + 1;
    let step = raised(side, goal - counter);
    let found = words.shared.fetch_add::<Offers>(seat, CONTROL, step);
    other_counter(side, found) == goal
}

// Whether the offer was taken.
fn make_recall(words: &Words, seat: &mut EndSeat, side: Side, joins: u64) -> bool
    requires seated { IsSeated words.now.shared.table_id seat.old.table_id side seat.old.me }
    requires joins { joins ≡ (tally_in seat.old.me).joins }
    requires up { (tally_in seat.old.me).standing ≡ true }
    requires room { length (moves_in seat.old.me) < most }
    ensures seat { seat.new.table_id ≡ seat.old.table_id }
    ensures moved { Moved side (knows_in seat.old.me.0) (moves.Recall side)
        (tally_in seat.old.me).value (tally_in seat.old.me).stamp result seat.new.me }
{
    let goal = 2 * joins + 1;
    let step = lowered(side);
    let found = words.shared.fetch_add::<Recalls>(seat, CONTROL, step);
    other_counter(side, found) >= goal
}

// The value of the last join, whose number is one less than the joins.
fn get_value(words: &Words, seat: &mut EndSeat, join: u64) -> i64
    requires seated { IsSeated words.now.shared.table_id seat.old.table_id sides.Receiver
        seat.old.me }
    requires joins { (tally_in seat.old.me).joins ≡ join + 1 }
    ensures same { (seat.new.table_id ≡ seat.old.table_id) × (seat.new.me ≡ seat.old.me) }
    ensures read { IsValue (tally_in seat.old.me).last result }
{
    let word = value_word(join);
    words.shared.load::<LoadsValue>(seat, word).cast_signed()
}

// The other's stamp of the last join.
fn get_stamp(words: &Words, seat: &mut EndSeat, side: Side, join: u64) -> u64
    requires seated { IsSeated words.now.shared.table_id seat.old.table_id side seat.old.me }
    requires joins { (tally_in seat.old.me).joins ≡ join + 1 }
    ensures same { (seat.new.table_id ≡ seat.old.table_id) × (seat.new.me ≡ seat.old.me) }
    ensures read { stamp_read (tally_in seat.old.me).last result }
{
    let word = stamp_word(side.other(), join);
    words.shared.load::<LoadsStamp>(seat, word)
}

// The last join, read from the other's lanes.
fn complete(
    words: &Words,
    seat: &mut EndSeat,
    side: Side,
    join: u64,
    value: i64,
    stamp: u64,
) -> Joined
    requires seated { IsSeated words.now.shared.table_id seat.old.table_id side seat.old.me }
    requires joins { (tally_in seat.old.me).joins ≡ join + 1 }
    requires own { IsOwn side (tally_in seat.old.me).last value stamp }
    ensures same { (seat.new.table_id ≡ seat.old.table_id) × (seat.new.me ≡ seat.old.me) }
    ensures read { Is (tally_in seat.old.me).last result }
{
    let theirs = get_stamp(words, seat, side, join);
    match side {
        Side::Sender => Joined {
            value,
            mine: stamp,
            theirs,
        },
        Side::Receiver => Joined {
            value: get_value(words, seat, join),
            mine: stamp,
            theirs,
        },
    }
}

// Offers what the lanes hold.
pub fn offer_out(
    words: &Words,
    seat: &mut EndSeat,
    side: Side,
    joins: u64,
    counter: u64,
    value: i64,
    stamp: u64,
) -> Option<Joined>
    requires seated { IsSeated words.now.shared.table_id seat.old.table_id side seat.old.me }
    requires joins { joins ≡ (tally_in seat.old.me).joins }
    requires counter { counter ≡ (tally_in seat.old.me).counter }
    requires down { (tally_in seat.old.me).standing ≡ false }
    requires value { value_to_offer side seat.old.me ≡ value }
    requires stamp { stamp_to_offer seat.old.me ≡ stamp }
    requires fits { OfferFits (kind_in seat.old.me) side value stamp }
    requires room { length (moves_in seat.old.me) < most }
    ensures seat { seat.new.table_id ≡ seat.old.table_id }
    ensures done { Done side (knows_in seat.old.me.0) (moves.Offer side value stamp)
        value stamp result seat.new.me }
{
    if make_offer(words, seat, side, joins, counter) {
        Some(complete(words, seat, side, joins, value, stamp))
    } else {
        None
    }
}

// Recalls the offer of this value and this stamp.
pub fn call_back(
    words: &Words,
    seat: &mut EndSeat,
    side: Side,
    joins: u64,
    value: i64,
    stamp: u64,
) -> Option<Joined>
    requires seated { IsSeated words.now.shared.table_id seat.old.table_id side seat.old.me }
    requires joins { joins ≡ (tally_in seat.old.me).joins }
    requires up { (tally_in seat.old.me).standing ≡ true }
    requires value { value ≡ (tally_in seat.old.me).value }
    requires stamp { stamp ≡ (tally_in seat.old.me).stamp }
    requires room { length (moves_in seat.old.me) < most }
    ensures seat { seat.new.table_id ≡ seat.old.table_id }
    ensures done { Done side (knows_in seat.old.me.0) (moves.Recall side)
        (tally_in seat.old.me).value (tally_in seat.old.me).stamp result seat.new.me }
{
    if make_recall(words, seat, side, joins) {
        Some(complete(words, seat, side, joins, value, stamp))
    } else {
        None
    }
}
