// The equations of a starting and of a resuming tick.

ghost use Rattle.std.specs.Prelude.{◌≡◌, ◌+◌, ◌^◌, ◌<◌, ◌≤◌, ◌∷◌, ◌++◌, [], length, map, drop, slice_index_or, true, IfOk, IsErr};
ghost use Rattle.kernel_terms.specs.Built.{is_built, all_built};
ghost use Rattle.domain_core.specs.equations.BuiltForms.{plain};
ghost use Rattle.domain_core.specs.equations.BuiltRegisters.{registers};
ghost use Rattle.domain_core.specs.equations.Circuit.{start, resume, waiting};
ghost use Rattle.domain_core.specs.equations.CircuitLists.{Adds, start_list, registers_of, resume_list, resume_before};

use crate::equations::built_forms::{
    built_exits_fit, count, count_all, first_part_is_built, loop_body_is_built, part_is_built,
    sequence_parts_are_built,
};
use java_values::NoMemory;
use kernel_terms::{Form, Term};
use plain_code::{Equation, Formula};
use tick_tree::{ends0, ends1};

/// Equations, and the wires that set registers and emit signals, each with the number that it sets
/// or emits.
#[derive(Drop)]
pub struct Parts {
    pub equations: Vec<Equation>,
    pub sets: Vec<(u32, u32)>,
    pub emits: Vec<(u32, u32)>,
}

/// Adds the starting copy of a statement, whose start the wire `go` tells and whose first register
/// has this number, and answers the wire that tells its end.
#[cycle(start)]
#[tactic(auto, using(crate::proofs::lemmas::equations::BuiltLists::parts_of_sequences))]
pub fn start(parts: &mut Parts, term: &Term, go: u32, register: u32) -> Result<u32, NoMemory>
    requires built { is_built term.now ≡ true }
    requires room { register + registers (plain term.now) < 2 ^ 32 }
    ensures { IfOk result (λ done. Adds parts.old parts.new
        (start (plain term.now) (length parts.old.equations.items) go register) done) }
{
    match &term.form {
        Form::Pause | Form::Send { .. } | Form::Receive { .. } => {
            parts.sets.push((register, go))?;
            Ok(0)
        }
        Form::Emit { signal, .. } => {
            parts.emits.push((*signal, go))?;
            Ok(go)
        }
        Form::Seq(list) => {
            let list = list.as_slice();
            sequence_parts_are_built(term, list);
            start_all(parts, list, go, register)
        }
        Form::Loop(body) => {
            let body = body.get();
            loop_body_is_built(term, body);
            start(parts, body, go, register)?;
            Ok(0)
        }
        _ => Ok(go),
    }
}

// The starting copies of the parts of a sequence, up to the first that can't end at once.
#[cycle(start)]
fn start_all(parts: &mut Parts, list: &[Term], go: u32, register: u32) -> Result<u32, NoMemory>
    requires built { all_built (map is_built list.now) ≡ true }
    requires room { register + registers_of (map plain list.now) < 2 ^ 32 }
    ensures { IfOk result (λ done. Adds parts.old parts.new
        (start_list (map plain list.now) (length parts.old.equations.items) go register) done) }
{
    let mut done = go;
    let mut next = register;
    for (at, term) in list.iter().enumerate() {
        part_is_built(list, at, term);
        done = start(parts, term, done, next)?;
        built_exits_fit(term);
        if !ends0(term) {
            return Ok(done);
        }
        next += count(term) as u32;
    }
    Ok(done)
}

/// The wire of the next equation, unless there are 2^32 already.
pub fn next_wire(equations: &[Equation]) -> Result<u32, NoMemory>
    ensures wire { IfOk result (λ wire. wire ≡ length equations.now) }
    ensures full { IsErr result → 2 ^ 32 ≤ length equations.now }
{
    u32::try_from(equations.len()).map_err(|_| NoMemory)
}

// Adds an equation, and answers its wire.
fn add(parts: &mut Parts, formula: Formula) -> Result<u32, NoMemory>
    ensures equations { IfOk result (λ wire. parts.new.equations.items ≡
        parts.old.equations.items ++
        record { wire = length parts.old.equations.items; formula = formula } ∷ []) }
    ensures sets { parts.new.sets.items ≡ parts.old.sets.items }
    ensures emits { parts.new.emits.items ≡ parts.old.emits.items }
    ensures wire { IfOk result (λ wire. wire ≡ length parts.old.equations.items) }
{
    let wire = next_wire(&parts.equations)?;
    parts.equations.push(Equation { wire, formula })?;
    Ok(wire)
}

// Adds the resuming copy of a send or a receive.
fn wait(parts: &mut Parts, register: u32) -> Result<u32, NoMemory>
    requires register { register + 1 < 2 ^ 32 }
    ensures { IfOk result (λ done. Adds parts.old parts.new
        (waiting (length parts.old.equations.items) register) done) }
{
    let on = add(parts, Formula::Get(register))?;
    let met = add(parts, Formula::Get(register + 1))?;
    let ends = add(parts, Formula::And(on, met))?;
    let unmet = add(parts, Formula::Not(met))?;
    let stays = add(parts, Formula::And(on, unmet))?;
    parts.sets.push((register, stays))?;
    Ok(ends)
}

/// Adds the resuming copy of a statement, whose first register has this number, and answers the
/// wire that tells its end.
#[cycle(resume)]
#[tactic(auto, using(crate::proofs::lemmas::equations::BuiltLists::parts_of_sequences))]
pub fn resume(parts: &mut Parts, term: &Term, register: u32) -> Result<u32, NoMemory>
    requires built { is_built term.now ≡ true }
    requires registers { register + registers (plain term.now) < 2 ^ 32 }
    ensures { IfOk result (λ done. Adds parts.old parts.new
        (resume (plain term.now) (length parts.old.equations.items) register) done) }
{
    match &term.form {
        Form::Pause => add(parts, Formula::Get(register)),
        Form::Send { .. } | Form::Receive { .. } => wait(parts, register),
        Form::Seq(list) => {
            let list = list.as_slice();
            sequence_parts_are_built(term, list);
            resume_all(parts, list, register)
        }
        Form::Loop(body) => {
            let body = body.get();
            loop_body_is_built(term, body);
            let done = resume(parts, body, register)?;
            built_exits_fit(body);
            if ends1(body) {
                start(parts, body, done, register)?;
            }
            Ok(0)
        }
        _ => Ok(0),
    }
}

#[cycle(resume)]
fn resume_all(parts: &mut Parts, list: &[Term], register: u32) -> Result<u32, NoMemory>
    requires built { all_built (map is_built list.now) ≡ true }
    requires registers { register + registers_of (map plain list.now) < 2 ^ 32 }
    ensures { IfOk result (λ done. Adds parts.old parts.new
        (resume_list (map plain list.now) (length parts.old.equations.items) register) done) }
{
    let mut done = 0;
    let mut next = register + count_all(list) as u32;
    for i in (0..list.len()).rev() {
        let part = &list[i];
        let after = &list[i + 1..];
        first_part_is_built(list, i, part, after);
        next -= count(part) as u32;
        done = resume_part(parts, part, after, done, next)?;
    }
    Ok(done)
}

// A part of a sequence, behind the copies of the parts after it.
#[cycle(resume)]
fn resume_part(
    parts: &mut Parts,
    term: &Term,
    after: &[Term],
    done: u32,
    register: u32,
) -> Result<u32, NoMemory>
    requires built { is_built term.now ≡ true }
    requires after { all_built (map is_built after.now) ≡ true }
    requires registers { register + registers (plain term.now) + registers_of (map plain after.now)
        < 2 ^ 32 }
    ensures { IfOk result (λ end. Adds parts.old parts.new
        (resume_before (plain term.now) (map plain after.now) (length parts.old.equations.items)
        done register) end) }
{
    let again = resume(parts, term, register)?;
    if after.is_empty() {
        return Ok(again);
    }
    built_exits_fit(term);
    if !ends1(term) {
        return Ok(done);
    }
    let ends = start_all(parts, after, again, register + count(term) as u32)?;
    add(parts, Formula::Or(done, ends))
}
