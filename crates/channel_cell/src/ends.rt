// One end of a channel, and the last recalls of both.

ghost use Rattle.std.specs.Prelude.{◌≡◌, ◌+◌, ◌*◌, ◌^◌, ◌<◌, ◌≤◌, true, false, IfOk, IfSome, IsSome, IsNone, pos, length};
ghost use Rattle.std.specs.Option.{is_some};
ghost use Rattle.java_values.specs.Kinds.{IsInRange};
ghost use Rattle.cell_core.specs.declared.moves.Side.TheVariants as sides;
ghost use Rattle.cell_core.specs.declared.moves.CellMove.TheVariants as make;
ghost use Rattle.cell_core.specs.definitions.Ends.{JoinsOffer, JoinsStanding};
ghost use Rattle.cell_core.specs.definitions.Ends.{JoinFits};
ghost use Rattle.channel_cell.specs.definitions.Channels.{IsFresh, Makes, most_offers, view_of, join_in};
ghost use Rattle.channel_cell.specs.Tallies.{tally, offer_of};
ghost use Rattle.channel_cell.specs.Calls.{RecallsLast};

use crate::joined::{learn, settle_one};
use crate::rule::Seats;
use crate::steps::{EndSeat, Words, call_back, offer_out, put_stamp, put_value};
use atomic_table::Table;
use cell_core::{Joined, Side};
use java_values::{Kind, NoMemory};
use std::alloc::Global;
use std::marker::Model;
use std::sync::Arc;

#[derive(Drop)]
pub struct End {
    words: Arc<Words, Global>,
    seat: EndSeat,
    side: Side,
    joins: u64,
    counter: u64,
    standing: bool,
    value: i64,
    stamp: u64,
    room: u64,
}

impl Model for End {
    ghost use Rattle.std.specs.Arc.{arc_value};
    ghost use Rattle.channel_cell.specs.definitions.Channels.{EndState};
    ghost use Rattle.channel_cell.specs.Rule.{knows_in};
    ghost use Rattle.channel_cell.specs.Calls.{end_state, KeepsEnd};

    ghost Value = { EndState };

    ghost view = { λ e. end_state e.seat.table_id e.side (knows_in e.seat.me.0) e.room };

    ghost invariant = { λ e. KeepsEnd (arc_value e.words).shared.table_id e.seat.table_id e.side
        e.seat.me e.joins e.counter e.standing e.value e.stamp e.room };
}

impl End {
    pub fn standing(&self) -> bool
        ensures { result ≡ is_some self.now.offer }
    {
        self.standing
    }

    // An offer of a sender.
    pub fn offer_to_send(&mut self, value: i64, stamp: u64) -> Option<Joined>
        requires standing { IsNone self.old.offer }
        requires room { 1 ≤ self.old.room }
        requires stamp { stamp < 2 ^ 62 }
        requires value { IsInRange self.old.kind value }
        requires side { self.old.side ≡ sides.Sender }
        ensures made { Makes self.old self.new (make.Offer self.old.side value stamp) result }
        ensures joined { IfSome result (JoinsOffer (view_of self.old) value stamp) }
        ensures fits { IfSome result (JoinFits self.old.kind) }
    {
        put_value(&self.words, &mut self.seat, self.joins, value);
        put_stamp(&self.words, &mut self.seat, self.side, self.joins, stamp);
        let answer = offer_out(
            &self.words,
            &mut self.seat,
            self.side,
            self.joins,
            self.counter,
            value,
            stamp,
        );
        self.counter = 2 * self.joins + 1;
        self.room -= 1;
        self.value = value;
        self.stamp = stamp;
        match answer {
            Some(_) => self.joins += 1,
            None => self.standing = true,
        }
        answer
    }

    // An offer of a receiver.
    pub fn offer_to_receive(&mut self, stamp: u64) -> Option<Joined>
        requires standing { IsNone self.old.offer }
        requires room { 1 ≤ self.old.room }
        requires stamp { stamp < 2 ^ 62 }
        requires side { self.old.side ≡ sides.Receiver }
        ensures made { Makes self.old self.new (make.Offer self.old.side (pos 0) stamp) result }
        ensures joined { IfSome result (JoinsOffer (view_of self.old) (pos 0) stamp) }
        ensures fits { IfSome result (JoinFits self.old.kind) }
    {
        put_stamp(&self.words, &mut self.seat, self.side, self.joins, stamp);
        let answer = offer_out(
            &self.words,
            &mut self.seat,
            self.side,
            self.joins,
            self.counter,
            0,
            stamp,
        );
        self.counter = 2 * self.joins + 1;
        self.room -= 1;
        self.value = 0;
        self.stamp = stamp;
        match answer {
            Some(_) => self.joins += 1,
            None => self.standing = true,
        }
        answer
    }

    pub fn recall(&mut self) -> Option<Joined>
        requires standing { IsSome self.old.offer }
        requires room { 1 ≤ self.old.room }
        ensures made { Makes self.old self.new (make.Recall self.old.side) result }
        ensures joined { IfSome result (JoinsStanding (view_of self.old)) }
        ensures fits { IfSome result (JoinFits self.old.kind) }
    {
        let answer = call_back(
            &self.words,
            &mut self.seat,
            self.side,
            self.joins,
            self.value,
            self.stamp,
        );
        self.counter -= 1;
        self.room -= 1;
        self.standing = false;
        match answer {
            Some(_) => self.joins += 1,
            None => {}
        }
        answer
    }
}

// The sender's and the receiver's end of a new channel.
pub fn new_ends(alloc: Global, kind: Kind, offers: u32) -> Result<(End, End), NoMemory>
    requires { offers ≤ most_offers }
    ensures channel { IfOk result (λ e. e.1.channel ≡ e.0.channel) }
    ensures sender { IfOk result (λ e. IsFresh sides.Sender kind (2 * offers + 1) e.0) }
    ensures receiver { IfOk result (λ e. IsFresh sides.Receiver kind (2 * offers + 1) e.1) }
{
    let room = 2 * u64::from(offers) + 1;
    let (table, mut seat) = Table::of_words(alloc, &[0, 0, 0, 0, 0, 0, 0], &kind)?;
    let words = Arc::new(alloc, table)?;
    let other = words.shared.split_seat::<Seats>(&mut seat);
    let theirs = Arc::try_clone(&words)?;
    let sender = End {
        words,
        seat,
        side: Side::Sender,
        joins: 0,
        counter: 0,
        standing: false,
        value: 0,
        stamp: 0,
        room,
    };
    let receiver = End {
        words: theirs,
        seat: other,
        side: Side::Receiver,
        joins: 0,
        counter: 0,
        standing: false,
        value: 0,
        stamp: 0,
        room,
    };
    Ok((sender, receiver))
}

// The answers of the last recalls, and how many joins the sender then knows.
#[derive(Drop)]
pub struct LastAnswers {
    pub sender: Option<Joined>,
    pub receiver: Option<Joined>,
    pub joins: u64,
}

// Joins the two seats, and then recalls the offers that stand.
pub fn last_recalls(sender: End, receiver: End) -> LastAnswers
    requires channel { receiver.channel ≡ sender.channel }
    requires sides { (sender.side ≡ sides.Sender) × (receiver.side ≡ sides.Receiver) }
    requires sender_room { IsSome sender.offer → 1 ≤ sender.room }
    requires receiver_room { IsSome receiver.offer → 1 ≤ receiver.room }
    ensures sender_offer { sender.offer ≡ offer_of (tally sender.moves) }
    ensures receiver_offer { receiver.offer ≡ offer_of (tally receiver.moves) }
    ensures last { RecallsLast sender.moves receiver.moves result.sender result.receiver }
    ensures joins { result.joins ≡ (tally sender.moves).joins + length (join_in result.sender) }
    ensures few { result.joins < 2 ^ 32 }
    ensures sent { IfSome result.sender (JoinFits sender.kind) }
    ensures received { IfSome result.receiver (JoinFits receiver.kind) }
{
    let End {
        words,
        mut seat,
        side: _,
        joins,
        counter: _,
        standing,
        value,
        stamp,
        room: _,
    } = sender;
    let End {
        words: _,
        seat: other,
        side: _,
        joins: other_joins,
        counter: _,
        standing: other_standing,
        value: other_value,
        stamp: other_stamp,
        room: _,
    } = receiver;
    words.shared.join_seat::<Seats>(&mut seat, other);
    let sent = if standing {
        settle_one(&words, &mut seat, Side::Sender, joins, value, stamp)
    } else {
        None
    };
    let received = if other_standing {
        settle_one(
            &words,
            &mut seat,
            Side::Receiver,
            other_joins,
            other_value,
            other_stamp,
        )
    } else {
        None
    };
    learn(&words, &mut seat);
    let joins = if sent.is_some() { joins + 1 } else { joins };
    LastAnswers {
        sender: sent,
        receiver: received,
        joins,
    }
}
