// What the answers of the ends change in a domain.

ghost use Rattle.std.specs.Prelude.{◌≡◌, ◌^◌, ◌+◌, ◌<◌, ◌≤◌, ℕ, cond, length, get_or, false, None, IfSome};
ghost use Rattle.cell_core.specs.declared.moves.Side.TheVariants.{Receiver};
ghost use Rattle.kernel_rules.specs.definitions.Signals.{put_at};
ghost use Rattle.java_values.specs.Arithmetic.{is_true};
ghost use Rattle.domain_core.specs.definitions.step.EndCalls.{end_at, stands_after};
ghost use Rattle.domain_core.specs.definitions.step.EndRegisters.{registers_joined, receivers_before};
ghost use Rattle.domain_core.specs.step.Answers.{raised, raised_by};
ghost use Rattle.domain_core.specs.step.EndPlaces.{ask_of, asked_at, first_of, is_waiting, value_at, is_joined, met_where_at, met_where, kept_at, kept, PlaceFits, PlacesFit, LastFits, HaveOwnRegisters};
ghost use Rattle.domain_core.specs.definitions.step.Domains.{register_at, is_receiver};
ghost use Rattle.domain_core.specs.step.JoinLists.{StampsFit};

use crate::step::ends_of::EndOf;
use cell_core::{Joined, Side};
use plain_code::EndPlace;

// Sets `met` at the place, if it is on and a join was answered at its end.
fn meet_at(place: EndPlace, answers: &[Option<Joined>], registers: &mut Vec<i64>)
    requires { PlaceFits (length answers.now) (length registers.old.items) place }
    ensures registers { register_at registers.new.items ≡
        met_where_at (is_joined answers.now) place (register_at registers.old.items) }
    ensures len { length registers.new.items ≡ length registers.old.items }
{
    if answers[place.which as usize].is_some() && registers[place.on as usize] != 0 {
        registers[place.met as usize] = 1;
    }
}

// Sets `met` at each place that is on and at whose end a join was answered.
fn meet_all(places: &[EndPlace], answers: &[Option<Joined>], registers: &mut Vec<i64>)
    requires { PlacesFit places.now (length answers.now) (length registers.old.items) }
    ensures registers { register_at registers.new.items ≡
        met_where (is_joined answers.now) places.now (register_at registers.old.items) }
    ensures len { length registers.new.items ≡ length registers.old.items }
{
    for place in places {
        meet_at(*place, answers, registers);
    }
}

// Writes a joined value to the register of this number, at a receiver.
fn keep_value(end: EndOf, last: &[u32], number: usize, value: i64, registers: &mut Vec<i64>)
    requires number { end.side ≡ Receiver → number < length last.now }
    requires register { end.side ≡ Receiver →
        get_or last.now number 0 < length registers.old.items }
    ensures registers { register_at registers.new.items ≡
        cond (is_receiver end.side)
        (put_at (register_at registers.old.items) (get_or last.now number 0) value)
        (register_at registers.old.items) }
    ensures len { length registers.new.items ≡ length registers.old.items }
{
    if end.side == Side::Receiver {
        registers[last[number] as usize] = value;
    }
}

// Keeps the value of a join that was answered at an end, where so many of the ends before it receive.
fn keep_at(
    last: &[u32],
    list: &[EndOf],
    at: usize,
    before: usize,
    answer: Option<Joined>,
    registers: &mut Vec<i64>,
)
    requires within { at < length list.now }
    requires before { before ≡ receivers_before list.now at }
    requires last { LastFits last.now list.now (length registers.old.items) }
    ensures registers { register_at registers.new.items ≡
        kept_at list.now last.now at answer (register_at registers.old.items) }
    ensures len { length registers.new.items ≡ length registers.old.items }
{
    if let Some(joined) = answer {
        keep_value(list[at], last, before, joined.value, registers);
    }
}

fn count_receiver(end: EndOf, count: usize) -> usize
    requires { count + 1 < 2 ^ 64 }
    ensures { result ≡ cond (is_receiver end.side) (count + 1) count }
{
    if end.side == Side::Receiver {
        count + 1
    } else {
        count
    }
}

// Keeps the values of the joins that were answered at receivers.
fn keep_all(last: &[u32], list: &[EndOf], answers: &[Option<Joined>], registers: &mut Vec<i64>)
    requires last { LastFits last.now list.now (length registers.old.items) }
    requires answers { length answers.now ≡ length list.now }
    ensures registers { register_at registers.new.items ≡
        kept list.now last.now answers.now (length list.now) (register_at registers.old.items) }
    ensures len { length registers.new.items ≡ length registers.old.items }
{
    let mut before = 0;
    for at in 0..list.len() {
        keep_at(last, list, at, before, answers[at], registers);
        before = count_receiver(list[at], before);
    }
}

/// Completes each end at which a join was answered: `met` is set at its places that are on, and a
/// receiver's last value is the joined one.
#[tactic(auto, using(crate::proofs::lemmas::step::JoinPasses::joins_in_passes))]
pub fn join_all(
    places: &[EndPlace],
    last: &[u32],
    list: &[EndOf],
    answers: &[Option<Joined>],
    registers: &mut Vec<i64>,
)
    requires places { PlacesFit places.now (length list.now) (length registers.old.items) }
    requires last { LastFits last.now list.now (length registers.old.items) }
    requires own { HaveOwnRegisters places.now last.now }
    requires answers { length answers.now ≡ length list.now }
    ensures registers { register_at registers.new.items ≡
        registers_joined places.now last.now list.now answers.now (length list.now)
        (register_at registers.old.items) }
    ensures len { length registers.new.items ≡ length registers.old.items }
{
    meet_all(places, answers, registers);
    keep_all(last, list, answers, registers);
}

fn waits(place: EndPlace, registers: &[i64]) -> bool
    requires on { place.on < length registers.now }
    requires met { place.met < length registers.now }
    ensures { result ≡ is_waiting place (register_at registers.now) }
{
    registers[place.on as usize] != 0 && registers[place.met as usize] == 0
}

fn value_at(side: Side, place: EndPlace, registers: &[i64]) -> i64
    requires { place.met + 1 < length registers.now }
    ensures { result ≡ value_at side place (register_at registers.now) }
{
    match side {
        Side::Sender => registers[place.met as usize + 1],
        Side::Receiver => 0,
    }
}

/// No end asks.
pub fn clear_asks(asks: &mut Vec<Option<i64>>)
    ensures asks { (k : ℕ) → get_or asks.new.items k None ≡ None }
    ensures len { length asks.new.items ≡ length asks.old.items }
{
    asks.fill(None);
}

// The end of a place that waits asks its value, where no place before it does.
fn ask_at(place: EndPlace, list: &[EndOf], registers: &[i64], asks: &mut Vec<Option<i64>>)
    requires place { PlaceFits (length list.now) (length registers.now) place }
    requires asks { length asks.old.items ≡ length list.now }
    ensures asks { (k : ℕ) → k < length list.now →
        get_or asks.new.items k None ≡
        first_of (get_or asks.old.items k None)
        (asked_at place k (end_at list.now k).side (register_at registers.now)) }
    ensures len { length asks.new.items ≡ length asks.old.items }
{
    let end = place.which as usize;
    if asks[end].is_none() && waits(place, registers) {
        asks[end] = Some(value_at(list[end].side, place, registers));
    }
}

/// The value with which each end waits, if it does.
#[tactic(auto, using(crate::proofs::lemmas::step::AskPasses::asking_steps))]
pub fn ask_all(places: &[EndPlace], list: &[EndOf], registers: &[i64], asks: &mut Vec<Option<i64>>)
    requires places { PlacesFit places.now (length list.now) (length registers.now) }
    requires asks { length asks.old.items ≡ length list.now }
    ensures asks { (k : ℕ) → k < length list.now →
        get_or asks.new.items k None ≡
        ask_of places.now k (end_at list.now k).side (register_at registers.now) }
    ensures len { length asks.new.items ≡ length list.now }
{
    clear_asks(asks);
    for place in places {
        ask_at(*place, list, registers, asks);
    }
}

fn raised_by(answer: Option<Joined>, stamp: u64) -> u64
    requires { IfSome answer StampsFit }
    ensures value { result ≡ raised_by answer stamp }
    ensures limit { stamp ≤ 2 ^ 62 → result ≤ 2 ^ 62 }
{
    match answer {
        Some(joined) => stamp.max(1 + joined.mine.max(joined.theirs)),
        None => stamp,
    }
}

/// The greatest stamp, with those of the answered joins.
pub fn raised(answers: &[Option<Joined>], stamp: u64) -> u64
    requires answers { (k : ℕ) → k < length answers.now →
        IfSome (get_or answers.now k None) StampsFit }
    requires limit { stamp ≤ 2 ^ 62 }
    ensures value { result ≡ raised answers.now (length answers.now) stamp }
    ensures limit { result ≤ 2 ^ 62 }
{
    let mut greatest = stamp;
    for at in 0..answers.len() {
        greatest = raised_by(answers[at], greatest);
    }
    greatest
}

fn stands_after(ask: Option<i64>, answer: Option<Joined>) -> bool
    ensures { result ≡ stands_after ask answer }
{
    ask.is_some() && answer.is_none()
}

/// Exactly the ends stand that asked and weren't answered.
pub fn stand_all(asks: &[Option<i64>], answers: &[Option<Joined>], standing: &mut Vec<bool>)
    requires asks { length asks.now ≡ length standing.old.items }
    requires answers { length answers.now ≡ length standing.old.items }
    ensures standing { (k : ℕ) → k < length standing.old.items →
        get_or standing.new.items k false ≡
        stands_after (get_or asks.now k None) (get_or answers.now k None) }
    ensures len { length standing.new.items ≡ length standing.old.items }
{
    for at in 0..standing.len() {
        standing[at] = stands_after(asks[at], answers[at]);
    }
}
