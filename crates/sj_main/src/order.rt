// The run of the turns, from the file on.

ghost use Rattle.std.specs.Prelude.{◌≡◌, ◌<◌, ℕ, length, IfErr, IfOk, IfSome, IsErrOf};
ghost use Rattle.kernel_terms.specs.Systems.{domains_of};
ghost use Rattle.sj_io.specs.definitions.Causes.{Rose};
ghost use Rattle.sj_io.specs.definitions.Files.{CountsStay};
ghost use Rattle.tick_log.specs.definitions.Holding.{run_state, HoldsRun};
ghost use Rattle.domain_core.specs.definitions.step.Compiling.{CanCompile};
ghost use Rattle.kernel_rules.specs.definitions.LegalTick.{no_inputs};
ghost use Rattle.gals_core.specs.definitions.OrderPlans.{AreDomainsOf, FitBudgets};
ghost use Rattle.gals_core.specs.definitions.OrderRuns.{IsOrderRun};
ghost use Rattle.sj_main.specs.CommandWords.{AreFew};
ghost use Rattle.sj_main.specs.OrderSteps.{IsMadeFrom, IsWhyNotMade, RunsTurns, IsWhyNoRun};

use crate::commands::Turns;
use crate::turns::{budgets, fit, list_rounds, run_weight};
use domain_core::{CompileError, Domain, compile};
use gals_core::{OrderPlan, run_order};
use java_values::NoMemory;
use kernel_terms::System;
use signal_store::Inputs;
use sj_accept::{AcceptError, MOST_SOURCE_BYTES, Refusal, accept};
use sj_io::{Files, ReadError, read_all};
use std::alloc::Global;
use thiserror::Error;
use tick_log::Run;

/// How much a run may weigh.
const MOST_RUN_WEIGHT: u64 = 4_000_000;

/// A system and a run of it.
#[derive(Drop)]
pub struct Made {
    pub system: System,
    pub run: Run,
}

/// Why there is no run.
#[derive(Clone, Copy, Debug, PartialEq, Eq, Error)]
pub enum OrderError {
    /// A read of the file failed.
    #[error("the file could not be read")]
    Fault,
    /// The source has more than 1,048,576 bytes.
    #[error("the source is too big")]
    Size,
    /// The source is refused.
    #[error("{0}")]
    Refused(Refusal),
    /// A turn is one of no domain of the source.
    #[error("a turn is one of no domain")]
    DomainsDoNotFit,
    /// The run would have this weight, which is above 4,000,000.
    #[error("the run weight {0} is above the limit")]
    OverWeight(u64),
    /// An allocation was refused.
    #[error("no memory")]
    NoMemory,
}

impl From<NoMemory> for OrderError {
    ghost use Rattle.sj_main.specs.declared.order.OrderError.TheVariants as error;
    ghost use Rattle.std.specs.Prelude.{◌≡◌};

    ghost from_gives = { λ _ e. e ≡ error.NoMemory };

    fn from(_error: NoMemory) -> OrderError {
        OrderError::NoMemory
    }
}

// How many domains a system has.
fn domain_count(system: &System) -> u32
    ensures { result ≡ length (domains_of system.now) }
{
    system.domains().len() as u32
}

// The domains of a system before their first ticks, by rising number.
#[tactic(auto, using(crate::proofs::OrderLemmas::compiling))]
fn compile_all(alloc: Global, system: &System) -> Result<Vec<Domain>, NoMemory>
    requires { (d : ℕ) → d < length (domains_of system.now) → CanCompile system.now d }
    ensures { IfOk result (λ domains. AreDomainsOf system.now domains.items) }
{
    let count = domain_count(system);
    let mut domains = Vec::with_capacity(alloc, count as usize)?;
    for number in 0..count {
        match compile(alloc, system, number) {
            Ok(domain) => domains.push(domain)?,
            Err(CompileError::NoMemory) => return Err(NoMemory),
        }
    }
    Ok(domains)
}

// The run of the turns, to which nothing is handed in.
fn run_plan(alloc: Global, system: &System, plan: OrderPlan, turns: &[u32]) -> Run
    requires system { plan.system ≡ system.now }
    requires turns { FitBudgets plan.ticks turns.now }
    ensures run { IsOrderRun system.now no_inputs turns.now (run_state result) }
    ensures holds { HoldsRun system.now result }
{
    let inputs = Inputs::new(alloc);
    run_order(system, plan, turns, &inputs)
}

// The run of the turns of a system, whose memory is taken before its first tick.
#[tactic(auto, using(crate::proofs::OrderLemmas::running))]
fn run_of(alloc: Global, system: &System, turns: &Turns) -> Result<Run, OrderError>
    requires can { (d : ℕ) → d < length (domains_of system.now) → CanCompile system.now d }
    requires few { AreFew turns.now }
    ensures runs { IfOk result (λ run. RunsTurns system.now turns.now (run_state run)) }
    ensures holds { IfOk result (λ run. HoldsRun system.now run) }
    ensures why { IfErr result (λ e. IsWhyNoRun system.now turns.now e) }
{
    let count = domain_count(system);
    if !fit(turns, count) {
        return Err(OrderError::DomainsDoNotFit);
    }
    let budgets = budgets(alloc, turns, count)?;
    let weight = run_weight(system, &budgets);
    if weight > MOST_RUN_WEIGHT {
        return Err(OrderError::OverWeight(weight));
    }
    let domains = compile_all(alloc, system)?;
    let plan = OrderPlan::open(alloc, system, domains, &budgets)?;
    match turns {
        Turns::Each(each) => Ok(run_plan(alloc, system, plan, each.as_slice())),
        Turns::Rounds(rounds) => {
            let list = list_rounds(alloc, *rounds, count)?;
            Ok(run_plan(alloc, system, plan, &list))
        }
    }
}

/// Reads the file's source, and makes the run of the turns of its program.
pub fn order<F: Files>(
    alloc: Global,
    file: &str,
    turns: &Turns,
    files: &mut F,
) -> Result<Made, OrderError>
    requires { AreFew turns.now }
    ensures made { IfOk result (λ made. IfSome (F.told files.old file.now)
        (λ bytes. IsMadeFrom bytes turns.now made)) }
    ensures holds { IfOk result (λ made. HoldsRun made.system made.run) }
    ensures fault { IsErrOf result OrderError.Fault →
        Rose (F.faults files.old file.now) (F.faults files.new file.now) }
    ensures counts_stay { (IsErrOf result OrderError.Fault → ⊥) →
        CountsStay (F.faults files.old) (F.faults files.new) }
    ensures why { IfErr result (λ e. IfSome (F.told files.old file.now)
        (λ bytes. IsWhyNotMade bytes turns.now e)) }
{
    let bytes = match read_all(alloc, files, file, MOST_SOURCE_BYTES) {
        Ok(bytes) => bytes,
        Err(ReadError::Fault) => return Err(OrderError::Fault),
        Err(ReadError::TooBig) => return Err(OrderError::Size),
        Err(ReadError::NoMemory) => return Err(OrderError::NoMemory),
    };
    let system = match accept(alloc, &bytes) {
        Ok(system) => system,
        Err(AcceptError::Refused(refusal)) => return Err(OrderError::Refused(refusal)),
        Err(AcceptError::NoMemory) => return Err(OrderError::NoMemory),
    };
    let run = run_of(alloc, &system, turns)?;
    Ok(Made { system, run })
}
