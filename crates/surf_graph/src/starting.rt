//! The starting copy of a statement.

ghost use Rattle.std.specs.Prelude.{◌≡◌, ◌+◌, ◌-◌, ◌≤◌, ◌<◌, ◌^◌, ◌∷◌, true, IfOk, ℕ, length, map, drop};
ghost use Rattle.std.specs.Prelude.{slice_index_or};
ghost use Rattle.kernel_terms.specs.Statements as statements;
ghost use Rattle.kernel_terms.specs.Statements.{statement, sequence, parallel};
ghost use Rattle.kernel_rules.specs.definitions.Registers.{registers};
ghost use Rattle.surf_graph.specs.StartsBuilt.{is_built, Closes, Opens, Starts};

use crate::builder::Builder;
use crate::copy_builder::{CopyBuilder, Given, Made, Turn};
use crate::formulas::{give_greater, give_is_status};
use crate::starting_leaves::{
    start_assignment, start_emission, start_nothing, start_pause, start_receive, start_send,
};
use java_values::NoMemory;
use kernel_terms::{Form, Tables, Term};
use std::alloc::Global;

const ENDED: u32 = 0;

// What a loop's body tells of it.
#[tactic(auto, using(crate::proofs::StartForms::loop_bodies))]
fn loop_body_is_built(b: &CopyBuilder, tables: &Tables, term: &Term, body: &Term)
    requires form { term.now.form ≡ Form.Loop body.now }
    ensures statement { statement term.now ≡ statements.Loop (statement body.now) }
    ensures registers { registers tables.now (statement term.now) ≡
        registers tables.now (statement body.now) }
    ensures built { is_built (length b.now.wires.variables.items) (length b.now.emits.items)
        (statement term.now) ≡ true →
        is_built (length b.now.wires.variables.items) (length b.now.emits.items)
        (statement body.now) ≡ true }
{}

// The statement of a list of parts in turn.
#[tactic(auto, using(crate::proofs::StartForms::lists_of_parts))]
fn sequence_has_parts(term: &Term, parts: &[Term])
    requires form { term.now.form ≡ Form.Seq parts.now }
    ensures { statement term.now ≡ sequence (map statement parts.now) }
{}

// The statement of a list of parts beside each other.
#[tactic(auto, using(crate::proofs::StartForms::lists_of_parts))]
fn parallel_has_parts(term: &Term, parts: &[Term])
    requires form { term.now.form ≡ Form.Par parts.now }
    ensures { statement term.now ≡ parallel (map statement parts.now) }
{}

// A list of one part is this part.
#[tactic(auto, using(crate::proofs::StartForms::single_parts))]
fn single_part_is_all(parts: &[Term], part: &Term)
    requires one { length parts.now ≡ 1 }
    requires part { part.now ≡ slice_index_or parts.now 0 part.now }
    ensures { parallel (map statement parts.now) ≡ statement part.now }
{}

// The i-th part, with others after it.
#[tactic(auto, using(crate::proofs::StartForms::turns_of_parts))]
fn turn_is_built(b: &CopyBuilder, tables: &Tables, parts: &[Term], i: usize, part: &Term)
    requires within { i + 1 < length parts.now }
    requires part { part.now ≡ slice_index_or parts.now i part.now }
    ensures turn { sequence (map statement (drop i parts.now)) ≡
        statements.Seq (statement part.now) (sequence (map statement (drop (i + 1) parts.now))) }
    ensures registers { registers tables.now (sequence (map statement (drop i parts.now))) ≡
        registers tables.now (statement part.now) +
        registers tables.now (sequence (map statement (drop (i + 1) parts.now))) }
    ensures built { is_built (length b.now.wires.variables.items) (length b.now.emits.items)
        (sequence (map statement (drop i parts.now))) ≡ true →
        is_built (length b.now.wires.variables.items) (length b.now.emits.items)
        (statement part.now) ≡ true }
{}

// The last part, whose first register has this number.
#[tactic(auto, using(crate::proofs::StartForms::last_parts))]
fn last_is_built(
    b: &CopyBuilder,
    tables: &Tables,
    parts: &[Term],
    at: usize,
    part: &Term,
    register: u32,
)
    requires at { at + 1 ≡ length parts.now }
    requires part { part.now ≡ slice_index_or parts.now at part.now }
    requires built { is_built (length b.now.wires.variables.items) (length b.now.emits.items)
        (sequence (map statement (drop at parts.now))) ≡ true }
    requires room { register + registers tables.now (sequence (map statement (drop at parts.now))) ≤
        length b.now.sets.items }
    requires fits { register + registers tables.now (sequence (map statement (drop at parts.now))) <
        2 ^ 32 }
    ensures all { sequence (map statement (drop at parts.now)) ≡ statement part.now }
    ensures built { is_built (length b.now.wires.variables.items) (length b.now.emits.items)
        (statement part.now) ≡ true }
    ensures room { register + registers tables.now (statement part.now) ≤
        length b.now.sets.items }
    ensures fits { register + registers tables.now (statement part.now) < 2 ^ 32 }
{}

// Gives the own wires of these sequences their statuses, by that of the last part, and answers the
// status of all.
#[tactic(auto, using(crate::proofs::SequenceStarts::closing_steps))]
fn close_turns(builder: &mut Builder, turns: &[Turn], last: u32) -> Result<u32, NoMemory>
    ensures { IfOk result (λ all. Closes builder.old builder.new turns.now last all) }
{
    let mut status = last;
    for i in (0..turns.len()).rev() {
        let turn = turns[i];
        give_greater(builder, turn.own, turn.status, status)?;
        status = turn.own;
    }
    Ok(status)
}

/// Builds the starting copy of a statement.
#[cycle(start)]
pub fn start(
    b: &mut CopyBuilder,
    alloc: Global,
    tables: &Tables,
    term: &Term,
    given: Given,
) -> Result<Made, NoMemory>
    requires built { is_built (length b.old.wires.variables.items) (length b.old.emits.items)
        (statement term.now) ≡ true }
    requires room { given.register + registers tables.now (statement term.now) ≤
        length b.old.sets.items }
    requires fits { given.register + registers tables.now (statement term.now) < 2 ^ 32 }
    ensures { IfOk result (λ made. Starts tables.now b.old b.new given (statement term.now) made) }
{
    match &term.form {
        Form::Nothing => start_nothing(b, given),
        Form::Pause => start_pause(b, given),
        Form::Emit { signal, value } => start_emission(b, given, *signal, value),
        Form::Assign { var, value } => start_assignment(b, given, *var, value),
        Form::If { .. } => unreachable!(),
        Form::Present { .. } => unreachable!(),
        Form::Seq(parts) => {
            let parts = parts.as_slice();
            sequence_has_parts(term, parts);
            start_sequence(b, alloc, tables, parts, given)
        }
        Form::Loop(body) => {
            let body = body.get();
            loop_body_is_built(b, tables, term, body);
            let made = start(b, alloc, tables, body, given)?;
            Ok(Made {
                ends: false,
                ..made
            })
        }
        Form::Par(parts) => {
            let parts = parts.as_slice();
            parallel_has_parts(term, parts);
            start_parallel(b, alloc, tables, parts, given)
        }
        Form::Trap(_) => unreachable!(),
        Form::Exit(_) => unreachable!(),
        Form::Abort { .. } => unreachable!(),
        Form::Suspend { .. } => unreachable!(),
        Form::Local { .. } => unreachable!(),
        Form::Send { channel, value } => start_send(b, given, *channel, value),
        Form::Receive { channel } => start_receive(b, given, *channel),
    }
}

// Parts beside each other. More than one aren't built so far.
#[cycle(start)]
fn start_parallel(
    b: &mut CopyBuilder,
    alloc: Global,
    tables: &Tables,
    parts: &[Term],
    given: Given,
) -> Result<Made, NoMemory>
    requires built { is_built (length b.old.wires.variables.items) (length b.old.emits.items)
        (parallel (map statement parts.now)) ≡ true }
    requires room { given.register + registers tables.now (parallel (map statement parts.now)) ≤
        length b.old.sets.items }
    requires fits { given.register + registers tables.now (parallel (map statement parts.now)) <
        2 ^ 32 }
    ensures { IfOk result (λ made. Starts tables.now b.old b.new given
        (parallel (map statement parts.now)) made) }
{
    let count = parts.len();
    if count == 0 {
        return start_nothing(b, given);
    }
    if count > 1 {
        unreachable!();
    }
    let part = &parts[0];
    single_part_is_all(parts, part);
    start(b, alloc, tables, part, given)
}

// The first part of a sequence, and the first of the own wires of this.
#[derive(Clone, Copy, Debug, Drop)]
struct Opened {
    own: u32,
    made: Made,
}

// Builds the first part of a sequence, behind own wires of this.
#[cycle(start)]
fn open_turn(
    b: &mut CopyBuilder,
    alloc: Global,
    tables: &Tables,
    part: &Term,
    given: Given,
) -> Result<Opened, NoMemory>
    requires built { is_built (length b.old.wires.variables.items) (length b.old.emits.items)
        (statement part.now) ≡ true }
    requires room { given.register + registers tables.now (statement part.now) ≤
        length b.old.sets.items }
    requires fits { given.register + registers tables.now (statement part.now) < 2 ^ 32 }
    ensures { IfOk result (λ opened.
        Opens tables.now b.old b.new given (statement part.now) opened.own opened.made) }
{
    let own = b.builder.take_own(3)?;
    let made = start(b, alloc, tables, part, given)?;
    give_is_status(&mut b.builder, own + 2, made.status, ENDED)?;
    Ok(Opened { own, made })
}

// Parts in turn, up to the first that can't end.
#[cycle(start)]
fn start_sequence(
    b: &mut CopyBuilder,
    alloc: Global,
    tables: &Tables,
    parts: &[Term],
    given: Given,
) -> Result<Made, NoMemory>
    requires built { is_built (length b.old.wires.variables.items) (length b.old.emits.items)
        (sequence (map statement parts.now)) ≡ true }
    requires room { given.register + registers tables.now (sequence (map statement parts.now)) ≤
        length b.old.sets.items }
    requires fits { given.register + registers tables.now (sequence (map statement parts.now)) <
        2 ^ 32 }
    ensures { IfOk result (λ made. Starts tables.now b.old b.new given
        (sequence (map statement parts.now)) made) }
{
    let count = parts.len();
    if count == 0 {
        return start_nothing(b, given);
    }
    let mut turns = Vec::new(alloc);
    let mut here = given;
    for i in 0..count - 1 {
        let part = &parts[i];
        turn_is_built(b, tables, parts, i, part);
        let opened = open_turn(b, alloc, tables, part, here)?;
        let status = opened.made.status;
        turns.push(Turn {
            own: opened.own,
            status,
        })?;
        if !opened.made.ends {
            let status = close_turns(&mut b.builder, &turns, 0)?;
            return Ok(Made {
                status,
                live: 0,
                ends: false,
                register: 0,
            });
        }
        here = Given {
            go: opened.own + 2,
            hold: 0,
            keep: here.keep,
            register: opened.made.register,
        };
    }
    let last = &parts[count - 1];
    last_is_built(b, tables, parts, count - 1, last, here.register);
    let made = start(b, alloc, tables, last, here)?;
    let status = close_turns(&mut b.builder, &turns, made.status)?;
    Ok(Made { status, ..made })
}
