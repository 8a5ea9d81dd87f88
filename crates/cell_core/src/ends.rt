ghost use Rattle.std.specs.Prelude.{◌≡◌, ◌^◌, ◌<◌, ◌≤◌, ℕ, Option, IsSome, IsNone, IfSome, OnSome, IfNone, IsSomeAnd};
ghost use Rattle.cell_core.specs.declared.moves.CellMove.{CellMove};
ghost use Rattle.cell_core.specs.declared.moves.CellMove.TheVariants as moves;
ghost use Rattle.cell_core.specs.declared.moves.Joined.{Joined};
ghost use Rattle.cell_core.specs.definitions.Ends.{EndView, ChangesOwnEnd, ValueFits, JoinsOffer, JoinsStanding, IsOffer};

use crate::moves::Joined;

/// The ends of channels that one domain moves, counted from 0.
pub trait Ends {
    /// How many ends there are.
    ghost count: { Self → ℕ };

    /// Of the end of a number its side, the kind of its channel, its offer that stands, if one does,
    /// and its room.
    ghost end_at: { Self → ℕ → EndView };

    /// Whether a move at the end of a number may lead from the ends before it, by that answer, to the
    /// ends after it.
    ghost moved: { Self → ℕ → CellMove → Option Joined → Self → Type 0 };

    /// Recalls the offer of end `at`, which stands. The answer is a join of that offer or none. Either way
    /// the end doesn't stand afterwards.
    fn recall(&mut self, at: usize) -> Option<Joined>
        requires end { at < count self.old }
        requires room { 1 ≤ (end_at self.old at).room }
        requires standing { IsSome (end_at self.old at).offer }
        ensures moved { moved self.old at (moves.Recall (end_at self.old at).side) result self.new }
        ensures count { count self.new ≡ count self.old }
        ensures own { ChangesOwnEnd (count self.old) (end_at self.old) (end_at self.new) at }
        ensures joined { IfSome result (JoinsStanding (end_at self.old at)) }
        ensures free { IsNone (end_at self.new at).offer };

    /// Offers at end `at`, which doesn't stand, with a stamp below 2^62 and, at a sender, a value in the
    /// channel's kind. A receiver's value is ignored. The answer is a join of this offer or none, and after
    /// none the end stands with the offer.
    fn offer(&mut self, at: usize, value: i64, stamp: u64) -> Option<Joined>
        requires end { at < count self.old }
        requires room { 1 ≤ (end_at self.old at).room }
        requires standing { IsNone (end_at self.old at).offer }
        requires stamp { stamp < 2 ^ 62 }
        requires value { ValueFits (end_at self.old at).side (end_at self.old at).kind value }
        ensures moved { moved self.old at (moves.Offer (end_at self.old at).side value stamp) result
            self.new }
        ensures count { count self.new ≡ count self.old }
        ensures own { ChangesOwnEnd (count self.old) (end_at self.old) (end_at self.new) at }
        ensures joined { IfSome result (JoinsOffer (end_at self.old at) value stamp) }
        ensures free { OnSome result (IsNone (end_at self.new at).offer) }
        ensures stands { IfNone result (IsSomeAnd (end_at self.new at).offer
            (IsOffer (end_at self.old at).side value stamp)) };
}
