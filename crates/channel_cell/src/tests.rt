ghost use Rattle.std.specs.Prelude.{◌≡◌, ◌+◌, ◌*◌, ◌^◌, ◌<◌, ◌≤◌, length, true, IfOk};
ghost use Rattle.java_values.specs.Kinds.{IsInRange};
ghost use Rattle.java_values.specs.declared.kind.Kind.TheVariants as kinds;

use crate::{Channel, ReceiverEnd, SenderEnd, settle};
use cell_core::{Cell, Joined, Side};
use java_values::{Kind, NoMemory};
use std::alloc::Global;
use std::sync::atomic::{AtomicU64, Ordering};
use std::test::Fail;
use std::thread::join;

// The sender's next move: a recall where its offer stands, and else an offer. Whether the end does as the
// cell.
fn sender_agrees(cell: &mut Cell, end: &mut SenderEnd, value: i64, stamp: u64) -> bool
    requires room { 1 ≤ end.old.room }
    requires value { IsInRange end.old.kind value }
    requires stamp { stamp < 2 ^ 62 }
    ensures same { (end.new.channel ≡ end.old.channel) × (end.new.kind ≡ end.old.kind) }
    ensures room { end.old.room ≤ end.new.room + 1 }
{
    if end.standing() != cell.standing(Side::Sender) {
        return false;
    }
    if end.standing() {
        end.recall() == cell.recall(Side::Sender)
    } else {
        end.offer(value, stamp) == cell.offer(Side::Sender, value, stamp)
    }
}

// The same of the receiver.
fn receiver_agrees(cell: &mut Cell, end: &mut ReceiverEnd, stamp: u64) -> bool
    requires room { 1 ≤ end.old.room }
    requires stamp { stamp < 2 ^ 62 }
    ensures same { (end.new.channel ≡ end.old.channel) × (end.new.kind ≡ end.old.kind) }
    ensures room { end.old.room ≤ end.new.room + 1 }
{
    if end.standing() != cell.standing(Side::Receiver) {
        return false;
    }
    if end.standing() {
        end.recall() == cell.recall(Side::Receiver)
    } else {
        end.offer(stamp) == cell.offer(Side::Receiver, 0, stamp)
    }
}

// Whether a channel does as the cell, where `s` is a move of the sender and each other byte one of the
// receiver, with the last recalls at the end.
fn channel_agrees(alloc: Global, moves: &[u8]) -> Result<bool, NoMemory>
    requires { length moves.now ≤ 20 }
{
    let (mut sender, mut receiver) = Channel::open(alloc, Kind::Short, 10)?;
    let mut cell = Cell::new();
    let mut same = true;
    for i in 0..moves.len() {
        let stamp = i as u64 + 1;
        let agrees = if moves[i] == b's' {
            sender_agrees(&mut cell, &mut sender, 100 - i as i64, stamp)
        } else {
            receiver_agrees(&mut cell, &mut receiver, stamp)
        };
        same = same && agrees;
    }
    let settled = settle(sender, receiver);
    let sent = if cell.standing(Side::Sender) {
        cell.recall(Side::Sender)
    } else {
        None
    };
    let received = if cell.standing(Side::Receiver) {
        cell.recall(Side::Receiver)
    } else {
        None
    };
    Ok(same && settled.sender == sent && settled.receiver == received)
}

#[test]
fn replies_are_the_cells(rt: HostRuntime) -> Result<(), Fail> {
    assert!(rt; channel_agrees(rt.alloc(), b"")?);
    // A join at once, that the other end finds at its recall.
    assert!(rt; channel_agrees(rt.alloc(), b"srs")?);
    assert!(rt; channel_agrees(rt.alloc(), b"rsr")?);
    assert!(rt; channel_agrees(rt.alloc(), b"sr")?);
    assert!(rt; channel_agrees(rt.alloc(), b"rs")?);
    // An offer is abandoned.
    assert!(rt; channel_agrees(rt.alloc(), b"ssrr")?);
    // An offer is abandoned before a join.
    assert!(rt; channel_agrees(rt.alloc(), b"sssrs")?);
    assert!(rt; channel_agrees(rt.alloc(), b"rrrsr")?);
    // Three joins in a row.
    assert!(rt; channel_agrees(rt.alloc(), b"srssrssrs")?);
    assert!(rt; channel_agrees(rt.alloc(), b"rsrsrsrrs")?);
    // An end offers again before the other has recalled.
    assert!(rt; channel_agrees(rt.alloc(), b"srrssrs")?);
    assert!(rt; channel_agrees(rt.alloc(), b"rssrrssrsrsr")?);
    Ok(())
}

#[test]
fn a_join_has_the_value_and_both_stamps(rt: HostRuntime) -> Result<(), Fail> {
    let (mut sender, mut receiver) = Channel::open(rt.alloc(), Kind::Byte, 1)?;
    assert!(rt; receiver.offer(3).is_none());
    assert!(rt; receiver.standing());
    let sent = sender.offer(-5, 4);
    assert!(rt; sent.is_some_and(|j| j.value == -5 && j.mine == 4 && j.theirs == 3));
    let received = receiver.recall();
    assert!(rt; received.is_some_and(|j| j.value == -5 && j.mine == 3 && j.theirs == 4));
    let settled = settle(sender, receiver);
    assert!(rt; settled.joins == 1);
    Ok(())
}

const MOVES: u32 = 100_000;

// How many increments of its own counter an end lets its offer stand before it recalls it.
const STAND: u32 = 20;

// The sender's end after its moves, and the joins that it was answered.
#[derive(Drop)]
struct Sent {
    end: SenderEnd,
    joins: Vec<Joined>,
}

#[derive(Drop)]
struct Received {
    end: ReceiverEnd,
    joins: Vec<Joined>,
}

fn stand() {
    let counter = AtomicU64::new(0);
    for _ in 0..STAND {
        counter.fetch_add(1, Ordering::SeqCst);
    }
}

// A new value and a new stamp at each offer.
fn send(alloc: Global, mut end: SenderEnd) -> Result<Sent, NoMemory>
    requires { (100001 ≤ end.room) × (end.kind ≡ kinds.Int) }
    ensures { IfOk result (λ r. (r.end.channel ≡ end.channel) × (1 ≤ r.end.room)) }
{
    let mut joins = Vec::new(alloc);
    for i in 0..MOVES {
        let answer = if end.standing() {
            stand();
            end.recall()
        } else {
            end.offer(i64::from(i) - 50_000, u64::from(i))
        };
        if let Some(join) = answer {
            joins.push(join)?;
        }
    }
    Ok(Sent { end, joins })
}

fn receive(alloc: Global, mut end: ReceiverEnd) -> Result<Received, NoMemory>
    requires { 100001 ≤ end.room }
    ensures { IfOk result (λ r. (r.end.channel ≡ end.channel) × (1 ≤ r.end.room)) }
{
    let mut joins = Vec::new(alloc);
    for i in 0..MOVES {
        let answer = if end.standing() {
            stand();
            end.recall()
        } else {
            end.offer(3 * u64::from(i) + 1)
        };
        if let Some(join) = answer {
            joins.push(join)?;
        }
    }
    Ok(Received { end, joins })
}

// Whether both lists have the same joins in the same order: equal values, and the stamps exchanged.
fn are_the_same(sent: &[Joined], received: &[Joined]) -> bool {
    if sent.len() != received.len() {
        return false;
    }
    for i in 0..sent.len() {
        let turned = Joined {
            value: sent[i].value,
            mine: sent[i].theirs,
            theirs: sent[i].mine,
        };
        if received[i] != turned {
            return false;
        }
    }
    true
}

#[test]
fn both_ends_have_the_same_joins(rt: HostRuntime) -> Result<(), Fail> {
    let alloc = rt.alloc();
    let (sender, receiver) = Channel::open(alloc, Kind::Int, 50_000)?;
    let (sent, received) = join(
        &rt,
        move || -> Result<Sent, NoMemory>
            requires { (100001 ≤ sender.room) × (sender.kind ≡ kinds.Int) }
            ensures { IfOk result (λ r. (r.end.channel ≡ sender.channel) × (1 ≤ r.end.room)) }
        { send(alloc, sender) },
        move || -> Result<Received, NoMemory>
            requires { 100001 ≤ receiver.room }
            ensures { IfOk result (λ r. (r.end.channel ≡ receiver.channel) × (1 ≤ r.end.room)) }
        { receive(alloc, receiver) },
    );
    let Sent {
        end: sender,
        joins: mut sent,
    } = sent?;
    let Received {
        end: receiver,
        joins: mut received,
    } = received?;
    let settled = settle(sender, receiver);
    if let Some(join) = settled.sender {
        sent.push(join)?;
    }
    if let Some(join) = settled.receiver {
        received.push(join)?;
    }
    assert!(rt; are_the_same(&sent, &received));
    assert!(rt; sent.len() as u64 == u64::from(settled.joins));
    Ok(())
}
