//! What a builder writes to: operations, and the next wires.

ghost use Rattle.std.specs.Prelude.{◌≡◌, ◌+◌, ◌^◌, ◌<◌, ◌≤◌, ◌∷◌, [], IfOk, OnOk, OnErr};
ghost use Rattle.std.specs.Prelude.{vec_len, vec_capacity};
ghost use Rattle.surf_graph.specs.definitions.SpelledOut.{gives, computed_by};
ghost use Rattle.surf_graph.specs.Building.{Adds, Computes};

use java_values::NoMemory;
use std::alloc::Global;
use wire_code::{Equation, Formula};

/// Further wires are numbered from here on, and all others below.
pub const FIRST_FURTHER: u32 = 0x8000_0000;

/// Equations of single operations, the next wire of a copy's own, and the next further one of
/// formulas that are spelled out. After `NoMemory` equations may be missing.
#[derive(Drop)]
pub struct Builder {
    pub equations: Vec<Equation>,
    pub next: u32,
    pub further: u32,
}

impl Builder {
    /// No equations yet. A copy's own wires begin with this one.
    pub fn new(alloc: Global, next: u32) -> Builder
        ensures equations { result.equations.items ≡ [] }
        ensures next { result.next ≡ next }
        ensures further { result.further ≡ 2 ^ 31 }
    {
        Builder {
            equations: Vec::new(alloc),
            next,
            further: FIRST_FURTHER,
        }
    }

    /// Takes so many wires of a copy's own, and answers the first. They are below the further ones.
    pub fn take_own(&mut self, count: u32) -> Result<u32, NoMemory>
        ensures first { IfOk result (λ first. first ≡ self.old.next) }
        ensures next { OnOk result (self.new.next ≡ self.old.next + count) }
        ensures below { OnOk result (self.new.next ≤ 2 ^ 31) }
        ensures full { OnErr result (2 ^ 31 < self.old.next + count) }
        ensures further { self.new.further ≡ self.old.further }
        ensures equations { self.new.equations ≡ self.old.equations }
    {
        let first = self.next;
        let next = first.checked_add(count).ok_or(NoMemory)?;
        if next > FIRST_FURTHER {
            return Err(NoMemory);
        }
        self.next = next;
        Ok(first)
    }

    /// Takes so many further wires, and answers the first.
    pub fn take_further(&mut self, count: u32) -> Result<u32, NoMemory>
        ensures first { IfOk result (λ first. first ≡ self.old.further) }
        ensures adds { OnOk result (Adds self.old self.new [] (self.old.further + count)) }
        ensures fits { IfOk result (λ first. first + count < 2 ^ 32) }
        ensures full { OnErr result (2 ^ 32 ≤ self.old.further + count) }
    {
        let first = self.further;
        self.further = first.checked_add(count).ok_or(NoMemory)?;
        Ok(first)
    }

    /// Gives this wire an operation.
    pub fn push(&mut self, wire: u32, formula: Formula) -> Result<(), NoMemory>
        ensures adds { OnOk result
            (Adds self.old self.new (gives wire formula ∷ []) self.old.further) }
        ensures refused { OnErr result
            (vec_capacity self.old.equations ≤ vec_len self.old.equations) }
    {
        self.equations.push(Equation { wire, formula })?;
        Ok(())
    }

    /// Gives the next further wire an operation, and answers it.
    pub fn add(&mut self, formula: Formula) -> Result<u32, NoMemory>
        ensures { IfOk result (λ wire. Computes self.old self.new
            (computed_by [] self.old.further formula) wire) }
    {
        let wire = self.take_further(1)?;
        self.push(wire, formula)?;
        Ok(wire)
    }
}
