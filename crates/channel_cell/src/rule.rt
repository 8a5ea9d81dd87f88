// What the two ends of a channel know, and the rule of their words. Word 0 is the control word. Words 1
// and 2 are the lanes of the value, 3 and 4 those of the sender's stamp, and 5 and 6 those of the
// receiver's.

ghost use Rattle.std.specs.Prelude.{◌≡◌};

use atomic_table::{Join, Play, Split, TableRule};
use cell_core::{Entry, Side};
use java_values::Kind;
use std::collections::LinkedList;

// The kind of the channel, the moves of one side, and the value and the stamp in its lanes for the
// next join. No value of it is made.
pub struct Knows {
    pub kind: Kind,
    pub moves: LinkedList<Entry>,
    pub value: i64,
    pub stamp: u64,
}

// What a seat knows. No value of it is made.
pub enum View {
    First(Kind),
    Own(Side, Knows),
    Both(Knows, Knows),
    Spent,
}

pub struct ChannelRule;

impl TableRule<(), View, Kind> for ChannelRule {
    ghost use Rattle.channel_cell.specs.Rule.{holds};
    ghost use Rattle.channel_cell.specs.declared.rule.View.TheVariants.{First};

    ghost holds = { λ _. holds };

    ghost first = { λ kind. First kind };
}

// A value is put into its lane.
pub struct StoresValue;

impl Play<(), View> for StoresValue {
    ghost use Rattle.channel_cell.specs.Rule.{value_tells};

    ghost then = { λ _ me new after. value_tells me.0 new after };
}

// A stamp is put into its lane.
pub struct StoresStamp;

impl Play<(), View> for StoresStamp {
    ghost use Rattle.channel_cell.specs.Rule.{stamp_tells};

    ghost then = { λ _ me new after. stamp_tells me.0 new after };
}

// An offer, at the control word as it was found.
pub struct Offers;

impl Play<(), View> for Offers {
    ghost use Rattle.channel_cell.specs.Rule.{offer_tells};

    ghost then = { λ _ me found after. offer_tells me.0 found after };
}

// A recall, at the control word as it was found.
pub struct Recalls;

impl Play<(), View> for Recalls {
    ghost use Rattle.channel_cell.specs.Rule.{recall_tells};

    ghost then = { λ _ me found after. recall_tells me.0 found after };
}

// The value of the last join is read.
pub struct LoadsValue;

impl Play<(), View> for LoadsValue {
    ghost use Rattle.channel_cell.specs.Rule.{read_value_tells};

    ghost then = { λ _ me found after. (after ≡ me) × read_value_tells me.0 found };
}

// The other side's stamp of the last join is read.
pub struct LoadsStamp;

impl Play<(), View> for LoadsStamp {
    ghost use Rattle.channel_cell.specs.Rule.{read_stamp_tells};

    ghost then = { λ _ me found after. (after ≡ me) × read_stamp_tells me.0 found };
}

// The seat with both lists recalls the sender's offer.
pub struct RecallsSender;

impl Play<(), View> for RecallsSender {
    ghost use Rattle.channel_cell.specs.Rule.{both_recall_tells};
    ghost use Rattle.cell_core.specs.declared.moves.Side.TheVariants.{Sender};

    ghost then = { λ _ me found after. both_recall_tells Sender me.0 found after };
}

// The seat with both lists recalls the receiver's offer.
pub struct RecallsReceiver;

impl Play<(), View> for RecallsReceiver {
    ghost use Rattle.channel_cell.specs.Rule.{both_recall_tells};
    ghost use Rattle.cell_core.specs.declared.moves.Side.TheVariants.{Receiver};

    ghost then = { λ _ me found after. both_recall_tells Receiver me.0 found after };
}

// The seat with both lists reads a lane.
pub struct LoadsBoth;

impl Play<(), View> for LoadsBoth {
    ghost use Rattle.channel_cell.specs.Rule.{read_both_tells};

    ghost then = { λ step me found after. (after ≡ me) × read_both_tells step.word me.0 found };
}

// The seat with both lists looks at the control word.
pub struct Learns;

impl Play<(), View> for Learns {
    ghost use Rattle.channel_cell.specs.Rule.{learn_tells};

    ghost then = { λ _ me found after. learn_tells me.0 found after };
}

// The first seat is split into one of each side, and these are joined into one with both lists.
pub struct Seats;

impl Split<View> for Seats {
    ghost use Rattle.channel_cell.specs.Rule.{own, knows_in};
    ghost use Rattle.cell_core.specs.declared.moves.Side.TheVariants.{Sender, Receiver};

    ghost left = { λ v. own Sender (knows_in v) };

    ghost right = { λ v. own Receiver (knows_in v) };
}

impl Join<View> for Seats {
    ghost use Rattle.channel_cell.specs.Rule.{both_views};
    ghost use Rattle.channel_cell.specs.declared.rule.View.TheVariants.{Spent};

    ghost both = { both_views };

    ghost spent = { Spent };
}
