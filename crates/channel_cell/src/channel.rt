ghost use Rattle.std.specs.Prelude.{◌≡◌, ◌+◌, ◌*◌, ◌^◌, ◌<◌, ◌≤◌, IfOk, IfSome, IsSome, IsNone, pos};
ghost use Rattle.std.specs.Option.{is_some};
ghost use Rattle.java_values.specs.Kinds.{IsInRange};
ghost use Rattle.cell_core.specs.declared.moves.Side.TheVariants as sides;
ghost use Rattle.cell_core.specs.declared.moves.CellMove.TheVariants as make;
ghost use Rattle.cell_core.specs.definitions.Ends.{JoinsOffer, JoinsStanding};
ghost use Rattle.cell_core.specs.definitions.Ends.{JoinFits};
ghost use Rattle.channel_cell.specs.definitions.Channels.{IsFresh, Makes, Settles, view_of};
ghost use Rattle.channel_cell.specs.definitions.Channels.{most_offers};

use crate::ends::{End, last_recalls, new_ends};
use cell_core::Joined;
use java_values::{Kind, NoMemory};
use std::alloc::Global;
use std::marker::Model;

/// A channel between two running threads.
pub struct Channel;

impl Channel {
    /// The two ends of a new channel, at which each side may make up to `offers` offers, with their
    /// recalls: at most 200,000.
    pub fn open(
        alloc: Global,
        kind: Kind,
        offers: u32,
    ) -> Result<(SenderEnd, ReceiverEnd), NoMemory>
        requires { offers ≤ most_offers }
        ensures channel { IfOk result (λ e. e.1.channel ≡ e.0.channel) }
        ensures sender { IfOk result (λ e. IsFresh sides.Sender kind (2 * offers + 1) e.0) }
        ensures receiver { IfOk result (λ e. IsFresh sides.Receiver kind (2 * offers + 1) e.1) }
    {
        let (sender, receiver) = new_ends(alloc, kind, offers)?;
        Ok((SenderEnd { end: sender }, ReceiverEnd { end: receiver }))
    }
}

/// The sender's end of a channel. A thread may own it while another owns the receiver's end.
#[derive(Drop)]
pub struct SenderEnd {
    end: End,
}

impl Model for SenderEnd {
    ghost use Rattle.std.specs.Prelude.{◌≡◌};
    ghost use Rattle.cell_core.specs.declared.moves.Side.TheVariants as sides;
    ghost use Rattle.channel_cell.specs.definitions.Channels.{EndState};

    ghost Value = { EndState };

    ghost view = { λ e. e.end };

    ghost invariant = { λ e. e.end.side ≡ sides.Sender };
}

impl SenderEnd {
    /// Whether the sender's offer stands.
    pub fn standing(&self) -> bool
        ensures { result ≡ is_some self.now.offer }
    {
        self.end.standing()
    }

    /// Offers a value of the channel's kind with a stamp below 2^62, where no offer of this end stands.
    /// The answer is a join of this offer or none, and this end's moves with their answers are a legal
    /// history of a cell with some moves of the other end. After no join the offer stands.
    pub fn offer(&mut self, value: i64, stamp: u64) -> Option<Joined>
        requires standing { IsNone self.old.offer }
        requires room { 1 ≤ self.old.room }
        requires stamp { stamp < 2 ^ 62 }
        requires value { IsInRange self.old.kind value }
        ensures made { Makes self.old self.new (make.Offer sides.Sender value stamp) result }
        ensures joined { IfSome result (JoinsOffer (view_of self.old) value stamp) }
        ensures fits { IfSome result (JoinFits self.old.kind) }
    {
        self.end.offer_to_send(value, stamp)
    }

    /// Recalls the offer that stands. The answer is a join of that offer or none, and this end's moves
    /// with their answers are a legal history of a cell with some moves of the other end. Either way the
    /// end doesn't stand afterwards.
    pub fn recall(&mut self) -> Option<Joined>
        requires standing { IsSome self.old.offer }
        requires room { 1 ≤ self.old.room }
        ensures made { Makes self.old self.new (make.Recall sides.Sender) result }
        ensures joined { IfSome result (JoinsStanding (view_of self.old)) }
        ensures fits { IfSome result (JoinFits self.old.kind) }
    {
        self.end.recall()
    }
}

/// The receiver's end of a channel. A thread may own it while another owns the sender's end.
#[derive(Drop)]
pub struct ReceiverEnd {
    end: End,
}

impl Model for ReceiverEnd {
    ghost use Rattle.std.specs.Prelude.{◌≡◌};
    ghost use Rattle.cell_core.specs.declared.moves.Side.TheVariants as sides;
    ghost use Rattle.channel_cell.specs.definitions.Channels.{EndState};

    ghost Value = { EndState };

    ghost view = { λ e. e.end };

    ghost invariant = { λ e. e.end.side ≡ sides.Receiver };
}

impl ReceiverEnd {
    /// Whether the receiver's offer stands.
    pub fn standing(&self) -> bool
        ensures { result ≡ is_some self.now.offer }
    {
        self.end.standing()
    }

    /// Offers to receive, with a stamp below 2^62, where no offer of this end stands. The answer is a
    /// join of this offer or none, and this end's moves with their answers are a legal history of a cell
    /// with some moves of the other end. After no join the offer stands.
    pub fn offer(&mut self, stamp: u64) -> Option<Joined>
        requires standing { IsNone self.old.offer }
        requires room { 1 ≤ self.old.room }
        requires stamp { stamp < 2 ^ 62 }
        ensures made { Makes self.old self.new (make.Offer sides.Receiver (pos 0) stamp) result }
        ensures joined { IfSome result (JoinsOffer (view_of self.old) (pos 0) stamp) }
        ensures fits { IfSome result (JoinFits self.old.kind) }
    {
        self.end.offer_to_receive(stamp)
    }

    /// Recalls the offer that stands. The answer is a join of that offer or none, and this end's moves
    /// with their answers are a legal history of a cell with some moves of the other end. Either way the
    /// end doesn't stand afterwards.
    pub fn recall(&mut self) -> Option<Joined>
        requires standing { IsSome self.old.offer }
        requires room { 1 ≤ self.old.room }
        ensures made { Makes self.old self.new (make.Recall sides.Receiver) result }
        ensures joined { IfSome result (JoinsStanding (view_of self.old)) }
        ensures fits { IfSome result (JoinFits self.old.kind) }
    {
        self.end.recall()
    }
}

/// What the last recalls answered, and how many joins each end then has.
#[derive(Clone, Copy, Debug, Drop, PartialEq, Eq)]
pub struct Settled {
    pub sender: Option<Joined>,
    pub receiver: Option<Joined>,
    pub joins: u32,
}

/// Recalls at each end of a channel the offer that stands, if one does. At most one of the two answers is a
/// join. All moves of both ends are then one legal history of a cell, and the two ends have the same joins,
/// with stamps exchanged.
pub fn settle(sender: SenderEnd, receiver: ReceiverEnd) -> Settled
    requires channel { receiver.channel ≡ sender.channel }
    requires sender_room { IsSome sender.offer → 1 ≤ sender.room }
    requires receiver_room { IsSome receiver.offer → 1 ≤ receiver.room }
    ensures { Settles sender receiver result.sender result.receiver result.joins }
{
    let SenderEnd { end: sender } = sender;
    let ReceiverEnd { end: receiver } = receiver;
    let last = last_recalls(sender, receiver);
    Settled {
        sender: last.sender,
        receiver: last.receiver,
        joins: last.joins as u32,
    }
}
