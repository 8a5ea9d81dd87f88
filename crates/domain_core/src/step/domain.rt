// A compiled domain.

ghost use Rattle.std.specs.Prelude.{◌≡◌, ◌+◌, ◌*◌, ◌^◌, ◌<◌, ◌≤◌, ℕ, cond, false, true, get_or, length, max, IfOk, IsErr};
ghost use Rattle.kernel_terms.specs.Limits.{most_domains, most_channels, most_signals, most_variables};
ghost use Rattle.kernel_terms.specs.Systems.{tables_of, domains_of};
ghost use Rattle.kernel_terms.specs.TableEntries.{variables_of};
ghost use Rattle.kernel_terms.specs.Marks.{Going, Ended, is_over};
ghost use Rattle.signal_store.specs.definitions.Handed.{handed};
ghost use Rattle.domain_core.specs.equations.BuiltForms.{plain};
ghost use Rattle.domain_core.specs.equations.BuiltLimits.{CanBuild};
ghost use Rattle.kernel_terms.specs.Built.{is_built};
ghost use Rattle.domain_core.specs.definitions.step.Steps.{stepped_to};
ghost use Rattle.domain_core.specs.definitions.step.Compiling.{CanCompile, IsCompiled};

use crate::equations::codes::Codes;
use crate::step::ends_of::{EndJoin, EndOf};
use crate::step::join_lists::grow;
use crate::step::opening::{
    count_received, count_values, count_variables, list_ends, list_signals, numbers_from,
    open_scratch, open_state,
};
use crate::step::outcome::Stepped;
use crate::step::parts::{
    Program, Scratch, State, ask, offer_phase, recall_phase, stand_none, tick,
};
use cell_core::Ends;
use java_values::NoMemory;
use kernel_terms::{System, Term};
use signal_store::Inputs;
use std::alloc::Global;
use std::marker::Model;
use std::snapshot::Snapshot;
use thiserror::Error;
use tick_log::Log;

/// A compiled clock domain of a system.
#[derive(Drop)]
pub struct Domain {
    program: Program,
    state: State,
    scratch: Scratch,
    log: Log,
    system: Snapshot<System>,
    domain: u32,
}

impl Model for Domain {
    ghost use Rattle.domain_core.specs.definitions.step.Domains.{DomainView};
    ghost use Rattle.kernel_terms.specs.contracts.term.Term as term;
    ghost use Rattle.std.specs.Coded.{codes};

    ghost Value = { DomainView };

    ghost coded = { Prim.hlevel (codes, term.the_row.coded) };

    ghost use Rattle.domain_core.specs.step.JoinLists.{joins_in};

    ghost view = { λ d. record {
      system = d.system.value;
      domain = d.domain;
      registers = d.state.registers.items;
      standing = d.state.standing.items;
      log = d.log;
      joins = joins_in d.state.joins.items;
      spare = d.log.room;
      stopped = d.state.stopped;
      stamp = d.state.stamp;
    } };

    ghost use Rattle.domain_core.specs.step.DomainKeeps.{Keeps};

    ghost invariant = { λ d. Keeps d.system.value d.domain d.program d.state d.scratch d.log };
}

/// Why a domain isn't compiled.
#[derive(Clone, Copy, Debug, PartialEq, Eq, Error)]
pub enum CompileError {
    /// An allocation was refused.
    #[error("no memory")]
    NoMemory,
}

impl From<NoMemory> for CompileError {
    fn from(_error: NoMemory) -> CompileError {
        CompileError::NoMemory
    }
}

#[tactic(auto, using(crate::proofs::lemmas::runs::WellFormedSystems::limits_of_systems))]
fn tables_are_limited(system: &System)
    ensures signals { length (tables_of system.now).signals ≤ most_domains * most_signals }
    ensures channels { length (tables_of system.now).channels ≤ most_channels }
    ensures variables { (d : ℕ) → d < length (domains_of system.now) →
        length (variables_of (tables_of system.now) d) ≤ most_variables }
{}

#[tactic(auto, using(crate::proofs::lemmas::step::CompilableDomains::can_builds))]
fn domain_can_be_built(system: &System, term: &Term, domain: u32)
    requires can { CanCompile system.now domain }
    requires term { term.now ≡ get_or (domains_of system.now) domain term.now }
    ensures built { is_built term.now ≡ true }
    ensures can { CanBuild (length (tables_of system.now).signals) (plain term.now) }
{}

/// The domain of a number, before its first tick and with memory for none. It has the built forms
/// alone, pure outputs, and keeps the rules on loops and weight.
pub fn compile(alloc: Global, system: &System, domain: u32) -> Result<Domain, CompileError>
    requires { CanCompile system.now domain }
    ensures { IfOk result (IsCompiled system.now domain) }
{
    let tables = system.tables();
    let signals = tables.signals.as_slice();
    tables_are_limited(system);
    let terms = system.domains();
    let term = &terms[domain as usize];
    domain_can_be_built(system, term, domain);
    let ends = list_ends(alloc, tables.channels.as_slice(), domain)?;
    let own = list_signals(alloc, signals, domain)?;
    let codes = Codes::new(alloc, term, &ends, signals.len() as u32, &own)?;
    let values = count_variables(tables, domain) + count_values(tables, domain);
    let first = codes.register_count() + values;
    let received = count_received(tables, domain);
    let program = Program {
        codes,
        ends,
        last: numbers_from(alloc, first as u32, received as u32)?,
    };
    let state = open_state(alloc, first + received, program.ends.len())?;
    let scratch = open_scratch(alloc, &program)?;
    let log = Log::open(alloc, own.len() as u32, 0)?;
    Ok(Domain {
        program,
        state,
        scratch,
        log,
        system: Snapshot::of(system),
        domain,
    })
}

fn stepped_to(ended: bool) -> Stepped
    ensures { result ≡ stepped_to (cond ended Ended Going) }
{
    if ended {
        Stepped::Ended
    } else {
        Stepped::Paused
    }
}

impl Domain {
    ghost use Rattle.domain_core.specs.definitions.step.Domains.{ends_in, joins_at, tick_count_of};
    ghost use Rattle.domain_core.specs.definitions.step.Steps.{FitsEnd, LeavesEnd, IsStep};

    /// Takes memory for at least so many ticks more.
    pub fn reserve(&mut self, ticks: u32) -> Result<(), NoMemory>
        requires { tick_count_of self.old + ticks < 2 ^ 32 }
        ensures reserved { IfOk result (λ _. self.new ≡
            record self.old {
              log = record self.old.log { room = max self.old.spare ticks };
              spare = max self.old.spare ticks;
            }) }
        ensures unchanged { IsErr result → self.new ≡ self.old }
    {
        let made = self.log.len() as usize;
        grow(&mut self.state.joins, made + ticks as usize)?;
        self.log.reserve(ticks)
    }

    /// The joins at an end, with the numbers of ticks that the domain had made.
    pub fn joins(&self, end: usize) -> &[EndJoin]
        requires { end < length (ends_in self.now) }
        ensures { result.now ≡ joins_at self.now.joins end }
    {
        &self.state.joins[end]
    }

    /// The entries of the ticks.
    pub fn into_log(self) -> Log
        ensures { result ≡ self.log }
    {
        let Domain { log, .. } = self;
        log
    }

    /// The stamp of the last tick, and 0 before the first.
    pub fn stamp(&self) -> u64
        ensures { result ≡ self.now.stamp }
    {
        self.state.stamp
    }

    /// Whether the last tick ended the domain.
    pub fn ended(&self) -> bool
        ensures { result ≡ is_over self.now.log.mark }
    {
        self.log.ended()
    }

    /// The entries of the ticks so far.
    pub fn log(&self) -> &Log
        ensures { result.now ≡ self.now.log }
    {
        &self.log
    }

    /// The ends, in order of channel number.
    pub fn ends(&self) -> &[EndOf]
        ensures { result.now ≡ ends_in self.now }
    {
        &self.program.ends
    }

    /// Recalls each end that stands, makes the next tick with what is handed in, and offers each end
    /// that waits after it; or stops, where the tick's stamp would be 2^62 or more. It takes no memory.
    pub fn step<E: Ends>(&mut self, ends: &mut E, inputs: &Inputs) -> Stepped
        requires going { self.old.log.mark ≡ Going }
        requires running { self.old.stopped ≡ false }
        requires spare { 1 ≤ self.old.spare }
        requires count { E.count ends.old ≡ length (ends_in self.old) }
        requires fits { (n : ℕ) → n < length (ends_in self.old) →
            FitsEnd self.old n (E.end_at ends.old n) }
        ensures step { IsStep E.moved (handed inputs.now) ends.old ends.new self.old self.new result }
        ensures count { E.count ends.new ≡ E.count ends.old }
        ensures leaves { (n : ℕ) → n < length (ends_in self.old) →
            LeavesEnd self.new n (E.end_at ends.old n) (E.end_at ends.new n) }
    {
        let ticks = self.log.len();
        recall_phase(
            &self.program,
            &mut self.state,
            &mut self.scratch.answers,
            ticks,
            ends,
        );
        let stamp = self.state.cause + 1;
        if stamp >= 1 << 62 {
            stand_none(&mut self.state.standing);
            self.state.stopped = true;
            return Stepped::StampLimit(stamp);
        }
        let ended = tick(
            &self.program.codes,
            &mut self.state.registers,
            &mut self.scratch.wires,
            &mut self.scratch.present,
            ticks,
        );
        self.log
            .push(stamp, &self.scratch.present, &self.scratch.zeros, ended);
        self.state.stamp = stamp;
        self.state.cause = stamp;
        ask(
            &self.program,
            &self.state.registers,
            ended,
            &mut self.scratch.asks,
        );
        let made = self.log.len();
        offer_phase(
            &self.program,
            &mut self.state,
            &self.scratch.asks,
            &mut self.scratch.replies,
            made,
            stamp,
            ends,
        );
        stepped_to(ended)
    }
}
