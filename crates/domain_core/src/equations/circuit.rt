// The code of a starting or a resuming tick, the wires that tell it, and one step of it.

ghost use Rattle.std.specs.Prelude.{◌≡◌, ◌<◌, ◌++◌, ℕ, length, map, IfOk, slice_index};
ghost use Rattle.std.specs.List.{All};
ghost use Rattle.plain_code.specs.Formulas.{IsOrdered, FitsFrame};
ghost use Rattle.domain_core.specs.equations.Circuit.{Part};
ghost use Rattle.domain_core.specs.equations.BuiltCodes.{Below, TellsEither, Merges, Shows, Steps, CanStep, head};

use crate::equations::builder::{Parts, next_wire};
use java_values::NoMemory;
use plain_code::{Code, Equation, Formula};
use std::alloc::Global;

// A wire that is on where either is. It is the second, where the first is wire 0, which is off.
#[tactic(auto, using(crate::proofs::lemmas::equations::CircuitMerging::either_second))]
fn either(equations: &mut Vec<Equation>, first: u32, second: u32) -> Result<u32, NoMemory>
    ensures { IfOk result (λ wire. TellsEither equations.old.items equations.new.items first second
        wire) }
{
    if first == 0 {
        return Ok(second);
    }
    let wire = next_wire(equations)?;
    equations.push(Equation {
        wire,
        formula: Formula::Or(first, second),
    })?;
    Ok(wire)
}

// Adds equations that give, for each number below the count, a wire that is on where the wire of
// some pair of this number is.
#[tactic(auto, using(crate::proofs::lemmas::equations::CircuitMerging::merge_steps))]
fn merge(
    alloc: Global,
    equations: &mut Vec<Equation>,
    pairs: &[(u32, u32)],
    count: u32,
) -> Result<Vec<u32>, NoMemory>
    requires some { 0 < length equations.old.items }
    requires below { Below count (length equations.old.items) pairs.now }
    ensures { IfOk result (λ wires. Merges equations.old.items equations.new.items wires.items
        pairs.now count) }
{
    let mut wires = vec![in alloc; 0u32; count as usize]?;
    for pair in pairs {
        let number = pair.0 as usize;
        let wire = either(equations, wires[number], pair.1)?;
        wires[number] = wire;
    }
    Ok(wires)
}

// The wires of these numbers.
#[tactic(auto, using(crate::proofs::lemmas::equations::CircuitMerging::picking_steps))]
fn pick(alloc: Global, wires: &[u32], numbers: &[u32]) -> Result<Vec<u32>, NoMemory>
    requires { All (λ (n : ℕ). n < length wires.now) numbers.now }
    ensures { IfOk result (λ v. v.items ≡ map (slice_index wires.now) numbers.now) }
{
    let mut picked = Vec::new(alloc);
    for number in numbers {
        picked.push(wires[*number as usize])?;
    }
    Ok(picked)
}

/// The code of a tick, and the wires that tell which of the domain's own signals are present, the
/// next registers, and whether the domain ends.
#[derive(Drop)]
pub struct Built {
    code: Code,
    present: Vec<u32>,
    next: Vec<u32>,
    end: u32,
}

/// The code of these parts, whose end the wire `end` tells. Of so many signals it tells those of the
/// numbers `own`.
pub fn finish(
    alloc: Global,
    parts: Parts,
    end: u32,
    signals: u32,
    own: &[u32],
    count: u32,
) -> Result<Built, NoMemory>
    requires some { 0 < length parts.equations.items }
    requires end { end < length parts.equations.items }
    requires emits { Below signals (length parts.equations.items) parts.emits.items }
    requires own { All (λ (s : ℕ). s < signals) own.now }
    requires sets { Below count (length parts.equations.items) parts.sets.items }
    requires fits { FitsFrame count parts.equations.items }
    requires ordered { IsOrdered 0 parts.equations.items }
    ensures { IfOk result (λ built. (part : Part) → head ++ part.equations ≡ parts.equations.items →
        part.done ≡ end → part.sets ≡ parts.sets.items → part.emits ≡ parts.emits.items →
        Shows built.code built.present.items built.next.items built.end head part own.now count) }
{
    let Parts {
        mut equations,
        sets,
        emits,
    } = parts;
    let emitted = merge(alloc, &mut equations, &emits, signals)?;
    let next = merge(alloc, &mut equations, &sets, count)?;
    let present = pick(alloc, &emitted, own)?;
    match Code::new(equations) {
        Some(code) => Ok(Built {
            code,
            present,
            next,
            end,
        }),
        None => unreachable!(),
    }
}

/// Solves the equations over the registers, and reads off which of the own signals are present, what
/// the statement's registers are next, and whether the domain ends. Registers past those stay.
pub fn step(built: &Built, registers: &mut [i64], wires: &mut [i64], present: &mut [bool]) -> bool
    requires can { CanStep built.now (length registers.old) (length present.old) }
    requires wires { length wires.old ≡ length built.now.code }
    ensures { Steps built.now.code built.now.present.items built.now.next.items built.now.end
        registers.old wires.new present.new registers.new result }
{
    built.code.run(registers, wires);
    for (i, at) in built.present.iter().enumerate() {
        present[i] = wires[*at as usize] != 0;
    }
    for (i, at) in built.next.iter().enumerate() {
        registers[i] = wires[*at as usize];
    }
    wires[built.end as usize] != 0
}

impl Built {
    /// How many wires the code gives.
    pub fn wire_count(&self) -> usize
        ensures { result ≡ length self.now.code }
    {
        self.code.len()
    }
}
