// The control word: the number of moves, the sender's counter and the receiver's.

ghost use Rattle.std.specs.Prelude.{◌≡◌, ◌+◌, ◌*◌, ◌^◌, ◌<◌};
ghost use Rattle.cell_core.specs.declared.moves.Side.TheVariants as sides;
ghost use Rattle.cell_core.specs.definitions.Cells.{other};
ghost use Rattle.channel_cell.specs.Tallies.{unit, counter_in, moves_limit};

use cell_core::Side;

// One of the sender's counter. The number of moves has the 20 bits below.
const SENDER_UNIT: u64 = 1 << 20;

// Each counter has 22 bits.
const COUNTER_LIMIT: u64 = 1 << 22;

// One of the receiver's counter.
const RECEIVER_UNIT: u64 = SENDER_UNIT * COUNTER_LIMIT;

// What raises a side's counter by so much, with one move more.
pub fn raised(side: Side, raise: u64) -> u64
    requires { raise < moves_limit }
    ensures { result ≡ raise * unit side + 1 }
{
    match side {
        Side::Sender => raise * SENDER_UNIT + 1,
        Side::Receiver => raise * RECEIVER_UNIT + 1,
    }
}

// What lowers a side's counter by one, with one move more, by a sum that wraps.
pub fn lowered(side: Side) -> u64
    ensures { result + unit side ≡ 2 ^ 64 + 1 }
{
    match side {
        Side::Sender => (u64::MAX - SENDER_UNIT) + 2,
        Side::Receiver => (u64::MAX - RECEIVER_UNIT) + 2,
    }
}

// The counters of a control word.
#[derive(Drop)]
struct Counters {
    sender: u64,
    receiver: u64,
}

fn unpacked(word: u64) -> Counters
    ensures sender { result.sender ≡ counter_in sides.Sender word }
    ensures receiver { result.receiver ≡ counter_in sides.Receiver word }
{
    Counters {
        sender: word / SENDER_UNIT % COUNTER_LIMIT,
        receiver: word / RECEIVER_UNIT,
    }
}

// The counter of the other side, as a control word has it.
pub fn other_counter(side: Side, word: u64) -> u64
    ensures { result ≡ counter_in (other side) word }
{
    let found = unpacked(word);
    match side {
        Side::Sender => found.receiver,
        Side::Receiver => found.sender,
    }
}
