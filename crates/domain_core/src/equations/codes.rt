// The codes of a domain's starting and resuming ticks.

ghost use Rattle.std.specs.Prelude.{◌≡◌, ◌^◌, ◌<◌, ◌≤◌, ℕ, IfOk, List, [], pos, length, get_or, true};
ghost use Rattle.std.specs.List.{All};
ghost use Rattle.kernel_terms.specs.declared.tables.Tables.{Tables};
ghost use Rattle.kernel_terms.specs.Statements.{Stmt, statement};
ghost use Rattle.kernel_rules.specs.definitions.Registers.{FitRegisters, residual};
ghost use Rattle.kernel_terms.specs.Built.{is_built};
ghost use Rattle.domain_core.specs.equations.BuiltForms.{Plain, whole, plain};
ghost use Rattle.domain_core.specs.equations.BuiltRegisters.{registers, HoldsLiteral};
ghost use Rattle.domain_core.specs.equations.BuiltLimits.{CanBuild};
ghost use Rattle.domain_core.specs.equations.BuiltCodes.{IsStarting, IsResuming, CanStep, AreBelow, StepsOn, written, head};
ghost use Rattle.domain_core.specs.equations.Codes.{AreCodes, AreSome, TellsTick};
ghost use Rattle.domain_core.specs.equations.Places.{plain_places};

use crate::equations::builder::{Parts, resume, start};
use crate::equations::built_forms::count;
use crate::equations::circuit::{Built, finish, step};
use crate::equations::sites::{Found, find};
use crate::step::ends_of::EndOf;
use java_values::NoMemory;
use kernel_terms::Term;
use plain_code::{EndPlace, Equation, Formula};
use std::alloc::Global;

// The wires that are off and on.
fn begin(alloc: Global) -> Result<Parts, NoMemory>
    ensures equations { IfOk result (λ parts. parts.equations.items ≡ head) }
    ensures sets { IfOk result (λ parts. parts.sets.items ≡ []) }
    ensures emits { IfOk result (λ parts. parts.emits.items ≡ []) }
{
    let mut equations = Vec::new(alloc);
    equations.push(Equation {
        wire: 0,
        formula: Formula::Const(0),
    })?;
    equations.push(Equation {
        wire: 1,
        formula: Formula::Const(1),
    })?;
    Ok(Parts {
        equations,
        sets: Vec::new(alloc),
        emits: Vec::new(alloc),
    })
}

#[tactic(auto, using(crate::proofs::lemmas::equations::CircuitStarts::few_registers))]
fn starting(
    alloc: Global,
    term: &Term,
    signals: u32,
    own: &[u32],
    count: u32,
) -> Result<Built, NoMemory>
    requires count { count ≡ registers (plain term.now) }
    requires built { is_built term.now ≡ true }
    requires can { CanBuild signals (plain term.now) }
    requires own { All (λ (s : ℕ). s < signals) own.now }
    ensures { IfOk result (λ built. IsStarting built (plain term.now) own.now) }
{
    let mut parts = begin(alloc)?;
    let end = start(&mut parts, term, 1, 0)?;
    finish(alloc, parts, end, signals, own, count)
}

#[tactic(auto, using(crate::proofs::lemmas::equations::CircuitStarts::few_registers))]
fn resuming(
    alloc: Global,
    term: &Term,
    signals: u32,
    own: &[u32],
    count: u32,
) -> Result<Built, NoMemory>
    requires count { count ≡ registers (plain term.now) }
    requires built { is_built term.now ≡ true }
    requires can { CanBuild signals (plain term.now) }
    requires own { All (λ (s : ℕ). s < signals) own.now }
    ensures { IfOk result (λ built. IsResuming built (plain term.now) own.now) }
{
    let mut parts = begin(alloc)?;
    let end = resume(&mut parts, term, 0)?;
    finish(alloc, parts, end, signals, own, count)
}

// Writes the literals of the sends.
#[tactic(auto, using(crate::proofs::lemmas::equations::CodeLiterals::writing_steps))]
fn write(literals: &[(u32, i64)], registers: &mut [i64])
    requires { AreBelow (length registers.old) literals.now }
    ensures { registers.new ≡ written literals.now registers.old }
{
    for literal in literals {
        registers[literal.0 as usize] = literal.1;
    }
}

// One tick. It takes no memory.
fn tick(
    built: &Built,
    literals: &[(u32, i64)],
    registers: &mut Vec<i64>,
    wires: &mut Vec<i64>,
    present: &mut Vec<bool>,
) -> bool
    requires can { CanStep built.now (length registers.old.items) (length present.old.items) }
    requires wires { length built.now.code ≤ length wires.old.items }
    requires literals { AreBelow (length registers.old.items) literals.now }
    ensures steps { StepsOn built.now literals.now registers.old.items present.new.items
        registers.new.items result }
    ensures registers { length registers.new.items ≡ length registers.old.items }
    ensures present { length present.new.items ≡ length present.old.items }
    ensures wires { length wires.new.items ≡ length wires.old.items }
{
    let used = built.wire_count();
    let ended = step(built, registers, &mut wires[..used], present);
    write(literals, registers);
    ended
}

/// The codes of a starting and of a resuming tick of a built statement, and its sends and receives.
#[derive(Drop)]
pub struct Codes {
    starting: Built,
    resuming: Built,
    places: Vec<EndPlace>,
    literals: Vec<(u32, i64)>,
    registers: usize,
    signals: usize,
    wires: usize,
}

impl Codes {
    /// The codes of a statement of the built forms over so many signals, in a domain with these ends,
    /// to which the signals of the numbers `own` belong.
    #[tactic(auto, using(crate::proofs::lemmas::equations::BuiltTrees::built_stands))]
    pub fn new(
        alloc: Global,
        term: &Term,
        ends: &[EndOf],
        signals: u32,
        own: &[u32],
    ) -> Result<Codes, NoMemory>
        requires ends { length ends.now < 2 ^ 32 }
        requires built { is_built term.now ≡ true }
        requires can { CanBuild signals (plain term.now) }
        requires own { All (λ (s : ℕ). s < signals) own.now }
        ensures stands { statement term.now ≡ whole (plain term.now) }
        ensures codes { IfOk result (λ c. AreCodes c (plain term.now) signals own.now) }
        ensures few { IfOk result (λ c. c.registers < 2 ^ 31) }
        ensures places { IfOk result (λ c. c.places.items ≡
            plain_places ends.now (plain term.now) 0) }
    {
        let count = count(term) as u32;
        let starting = starting(alloc, term, signals, own, count)?;
        let resuming = resuming(alloc, term, signals, own, count)?;
        let mut found = Found {
            places: Vec::new(alloc),
            literals: Vec::new(alloc),
        };
        find(&mut found, ends, term, 0)?;
        let Found { places, literals } = found;
        let wires = starting.wire_count().max(resuming.wire_count());
        Ok(Codes {
            starting,
            resuming,
            places,
            literals,
            registers: count as usize,
            signals: own.len(),
            wires,
        })
    }

    /// The sends and receives of the statement, from the left.
    pub fn places(&self) -> &[EndPlace]
        ensures { result.now ≡ self.now.places.items }
    {
        self.places.as_slice()
    }

    /// How many registers the statement has.
    pub fn register_count(&self) -> usize
        ensures { result ≡ self.now.registers }
    {
        self.registers
    }

    /// How many own signals the domain has.
    pub fn signal_count(&self) -> usize
        ensures { result ≡ self.now.signals }
    {
        self.signals
    }

    /// How many wires a tick needs.
    pub fn wire_count(&self) -> usize
        ensures { result ≡ self.now.wires }
    {
        self.wires
    }

    /// The starting tick: writes which own signals are present and the statement's registers after it,
    /// which are the first ones, and tells whether the domain ends. It takes no memory.
    pub fn start(
        &self,
        registers: &mut Vec<i64>,
        wires: &mut Vec<i64>,
        present: &mut Vec<bool>,
    ) -> bool
        requires are { AreSome self.now }
        requires registers { self.now.registers ≤ length registers.old.items }
        requires wires { length wires.old.items ≡ self.now.wires }
        requires present { length present.old.items ≡ self.now.signals }
        ensures tells { (tables : Tables) (p : Plain) (n : ℕ) (own : List ℕ) →
            AreCodes self.now p n own →
            TellsTick tables (whole p) n own (whole p) present.new.items
            (λ k. get_or registers.new.items k (pos 0)) result }
        ensures literals { (p : Plain) (n : ℕ) (own : List ℕ) → AreCodes self.now p n own →
            HoldsLiteral p 0 (λ k. get_or registers.new.items k (pos 0)) }
        ensures others { (k : ℕ) → self.now.registers ≤ k →
            get_or registers.new.items k (pos 0) ≡ get_or registers.old.items k (pos 0) }
        ensures registers { length registers.new.items ≡ length registers.old.items }
        ensures wires { length wires.new.items ≡ length wires.old.items }
        ensures present { length present.new.items ≡ length present.old.items }
    {
        tick(&self.starting, &self.literals, registers, wires, present)
    }

    /// A resuming tick, from registers that fit and hold the literals of the sends. It takes no
    /// memory.
    pub fn resume(
        &self,
        registers: &mut Vec<i64>,
        wires: &mut Vec<i64>,
        present: &mut Vec<bool>,
    ) -> bool
        requires are { AreSome self.now }
        requires registers { self.now.registers ≤ length registers.old.items }
        requires wires { length wires.old.items ≡ self.now.wires }
        requires present { length present.old.items ≡ self.now.signals }
        ensures tells { (tables : Tables) (p : Plain) (n : ℕ) (own : List ℕ) →
            AreCodes self.now p n own →
            FitRegisters tables (whole p) 0 (λ k. get_or registers.old.items k (pos 0)) →
            HoldsLiteral p 0 (λ k. get_or registers.old.items k (pos 0)) →
            TellsTick tables (whole p) n own
            (residual tables (whole p) 0 (λ k. get_or registers.old.items k (pos 0)))
            present.new.items (λ k. get_or registers.new.items k (pos 0)) result }
        ensures literals { (tables : Tables) (p : Plain) (n : ℕ) (own : List ℕ) →
            AreCodes self.now p n own →
            FitRegisters tables (whole p) 0 (λ k. get_or registers.old.items k (pos 0)) →
            HoldsLiteral p 0 (λ k. get_or registers.old.items k (pos 0)) →
            HoldsLiteral p 0 (λ k. get_or registers.new.items k (pos 0)) }
        ensures others { (k : ℕ) → self.now.registers ≤ k →
            get_or registers.new.items k (pos 0) ≡ get_or registers.old.items k (pos 0) }
        ensures registers { length registers.new.items ≡ length registers.old.items }
        ensures wires { length wires.new.items ≡ length wires.old.items }
        ensures present { length present.new.items ≡ length present.old.items }
    {
        tick(&self.resuming, &self.literals, registers, wires, present)
    }
}
