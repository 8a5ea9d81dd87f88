// The parts of a domain, and the phases of a step.

ghost use Rattle.std.specs.Prelude.{◌≡◌, ◌+◌, ◌^◌, ◌<◌, ◌≤◌, ℕ, length, get_or, cond, true, false, None, IfSome, List, Option};
ghost use Rattle.cell_core.specs.declared.moves.Joined.{Joined};
ghost use Rattle.domain_core.specs.equations.Codes.{AreSome};
ghost use Rattle.domain_core.specs.definitions.step.EndCalls.{end_at, stands_after, CanRecall, CanOffer, RecallsAll, OffersAll};
ghost use Rattle.domain_core.specs.step.EndPlaces.{ask_of, PlacesFit, LastFits, HaveOwnRegisters};
ghost use Rattle.domain_core.specs.definitions.step.Domains.{register_at};
ghost use Rattle.domain_core.specs.step.JoinLists.{StampsFit, HasRoom};
ghost use Rattle.domain_core.specs.step.StepParts.{PartsHold, AreNoJoins, Applies, MakesCodeTick};

use crate::equations::codes::Codes;
use crate::step::end_state::{ask_all, clear_asks, join_all, raised, stand_all};
use crate::step::ends_calls::{offer_all, recall_all};
use crate::step::ends_of::{EndJoin, EndOf};
use crate::step::join_lists::add_joins;
use cell_core::{Ends, Joined};

/// What never changes in a domain: its codes, its ends, and the registers of the last values of its
/// receiving channels.
#[derive(Drop)]
pub struct Program {
    pub codes: Codes,
    pub ends: Vec<EndOf>,
    pub last: Vec<u32>,
}

/// What ticks and joins change. `cause` is the greatest of the stamps of the last tick and of the joins
/// since then.
#[derive(Drop)]
pub struct State {
    pub registers: Vec<i64>,
    pub standing: Vec<bool>,
    pub joins: Vec<Vec<EndJoin>>,
    pub stamp: u64,
    pub cause: u64,
    pub stopped: bool,
}

/// Memory for one step.
#[derive(Drop)]
pub struct Scratch {
    pub answers: Vec<Option<Joined>>,
    pub replies: Vec<Option<Joined>>,
    pub asks: Vec<Option<i64>>,
    pub wires: Vec<i64>,
    pub present: Vec<bool>,
    pub zeros: Vec<i64>,
}

// Whether no join was answered.
#[tactic(auto, using(crate::proofs::lemmas::step::NoJoins::no_joins))]
fn none_answered(answers: &[Option<Joined>]) -> bool
    ensures none { result ≡ true → AreNoJoins answers.now }
    ensures some { result ≡ false → AreNoJoins answers.now → ⊥ }
{
    for at in 0..answers.len() {
        if answers[at].is_some() {
            return false;
        }
    }
    true
}

/// The joins that were answered complete the ends. It takes no memory.
pub fn apply(program: &Program, state: &mut State, answers: &[Option<Joined>], ticks: u32)
    requires answers { length answers.now ≡ length program.now.ends.items }
    requires lists { length state.old.joins.items ≡ length program.now.ends.items }
    requires places { PlacesFit program.now.codes.places.items (length program.now.ends.items)
        (length state.old.registers.items) }
    requires last { LastFits program.now.last.items program.now.ends.items
        (length state.old.registers.items) }
    requires own { HaveOwnRegisters program.now.codes.places.items program.now.last.items }
    requires room { HasRoom state.old.joins.items answers.now 0 }
    requires stamps { (k : ℕ) → k < length answers.now →
        IfSome (get_or answers.now k None) StampsFit }
    requires limit { state.old.cause ≤ 2 ^ 62 }
    ensures applies { Applies program.now state.old state.new answers.now ticks }
    ensures standing { state.new.standing.items ≡ state.old.standing.items }
{
    if none_answered(answers) {
        return;
    }
    join_all(
        program.codes.places(),
        &program.last,
        &program.ends,
        answers,
        &mut state.registers,
    );
    add_joins(&mut state.joins, answers, ticks);
    state.cause = raised(answers, state.cause);
}

/// The tick after so many ticks. It takes no memory.
pub fn tick(
    codes: &Codes,
    registers: &mut Vec<i64>,
    wires: &mut Vec<i64>,
    present: &mut Vec<bool>,
    ticks: u32,
) -> bool
    requires are { AreSome codes.now }
    requires registers { codes.now.registers ≤ length registers.old.items }
    requires wires { length wires.old.items ≡ codes.now.wires }
    requires present { length present.old.items ≡ codes.now.signals }
    ensures tick { MakesCodeTick codes.now ticks (register_at registers.old.items)
        (register_at registers.new.items) present.new.items result }
    ensures registers { length registers.new.items ≡ length registers.old.items }
    ensures wires { length wires.new.items ≡ length wires.old.items }
    ensures present { length present.new.items ≡ length present.old.items }
{
    if ticks == 0 {
        codes.start(registers, wires, present)
    } else {
        codes.resume(registers, wires, present)
    }
}

/// Recalls each end that stands, and completes the ends whose joins are answered. No end stands
/// afterwards in `ends`; which stood is kept until the offers. It takes no memory.
pub fn recall_phase<E: Ends>(
    program: &Program,
    state: &mut State,
    answers: &mut Vec<Option<Joined>>,
    ticks: u32,
    ends: &mut E,
)
    requires parts { PartsHold program.now state.old ticks 0 }
    requires answers { length answers.old.items ≡ length program.now.ends.items }
    requires count { E.count ends.old ≡ length program.now.ends.items }
    requires can { (k : ℕ) → k < length program.now.ends.items →
        CanRecall (end_at program.now.ends.items k) (get_or state.old.standing.items k false)
        (E.end_at ends.old k) }
    requires stamps { (k : ℕ) → k < length program.now.ends.items →
        IfSome (E.end_at ends.old k).offer (λ o. o.stamp < 2 ^ 62) }
    ensures recalls { RecallsAll E.moved E.count E.end_at program.now.ends.items
        state.old.standing.items answers.new.items (length program.now.ends.items) ends.old
        ends.new }
    ensures answers { length answers.new.items ≡ length program.now.ends.items }
    ensures applies { Applies program.now state.old state.new answers.new.items ticks }
    ensures standing { state.new.standing.items ≡ state.old.standing.items }
{
    recall_all(ends, &program.ends, &state.standing, answers);
    apply(program, state, answers, ticks);
}

/// What each end asks after a tick. It takes no memory.
pub fn ask(program: &Program, registers: &[i64], ended: bool, asks: &mut Vec<Option<i64>>)
    requires places { PlacesFit program.now.codes.places.items (length program.now.ends.items)
        (length registers.now) }
    requires asks { length asks.old.items ≡ length program.now.ends.items }
    ensures asks { (k : ℕ) → k < length program.now.ends.items →
        get_or asks.new.items k None ≡
        cond ended None (ask_of program.now.codes.places.items k
        (end_at program.now.ends.items k).side (register_at registers.now)) }
    ensures len { length asks.new.items ≡ length program.now.ends.items }
{
    if ended {
        clear_asks(asks);
    } else {
        ask_all(program.codes.places(), &program.ends, registers, asks);
    }
}

/// Makes the offers, completes the ends whose joins are answered, and keeps which ends stand. It takes no
/// memory.
pub fn offer_phase<E: Ends>(
    program: &Program,
    state: &mut State,
    asks: &[Option<i64>],
    replies: &mut Vec<Option<Joined>>,
    ticks: u32,
    stamp: u64,
    ends: &mut E,
)
    requires standing { length state.old.standing.items ≡ length program.now.ends.items }
    requires lists { length state.old.joins.items ≡ length program.now.ends.items }
    requires places { PlacesFit program.now.codes.places.items (length program.now.ends.items)
        (length state.old.registers.items) }
    requires last { LastFits program.now.last.items program.now.ends.items
        (length state.old.registers.items) }
    requires own { HaveOwnRegisters program.now.codes.places.items program.now.last.items }
    requires room { (answers : List (Option Joined)) → HasRoom state.old.joins.items answers 0 }
    requires limit { state.old.cause ≤ 2 ^ 62 }
    requires replies { length replies.old.items ≡ length program.now.ends.items }
    requires asks { length asks.now ≡ length program.now.ends.items }
    requires count { E.count ends.old ≡ length program.now.ends.items }
    requires stamp { stamp < 2 ^ 62 }
    requires can { (k : ℕ) → k < length program.now.ends.items →
        CanOffer (end_at program.now.ends.items k) (get_or asks.now k None) (E.end_at ends.old k) }
    ensures offers { OffersAll E.moved E.count E.end_at program.now.ends.items asks.now stamp
        replies.new.items (length program.now.ends.items) ends.old ends.new }
    ensures replies { length replies.new.items ≡ length program.now.ends.items }
    ensures applies { Applies program.now state.old state.new replies.new.items ticks }
    ensures standing { (k : ℕ) → k < length program.now.ends.items →
        get_or state.new.standing.items k false ≡
        stands_after (get_or asks.now k None) (get_or replies.new.items k None) }
    ensures length { length state.new.standing.items ≡ length program.now.ends.items }
{
    offer_all(ends, &program.ends, asks, stamp, replies);
    apply(program, state, replies, ticks);
    stand_all(asks, replies, &mut state.standing);
}

/// No end stands.
pub fn stand_none(standing: &mut Vec<bool>)
    ensures standing { (k : ℕ) → get_or standing.new.items k false ≡ false }
    ensures len { length standing.new.items ≡ length standing.old.items }
{
    standing.fill(false);
}
