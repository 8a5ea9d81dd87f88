// Plans of scheduled runs, and the runs that they give.

ghost use Rattle.std.specs.Prelude.{◌≡◌, ◌<◌, ◌≤◌, ◌+◌, ◌++◌, ◌∷◌, [], length, IfOk};
ghost use Rattle.std.specs.Prelude.{vec_len, vec_capacity};
ghost use Rattle.signal_store.specs.definitions.Handed.{handed};
ghost use Rattle.tick_log.specs.definitions.Holding.{run_state, HoldsRun};
ghost use Rattle.gals_core.specs.definitions.OrderPlans.{AreDomainsOf, AreBudgets, FitBudgets};
ghost use Rattle.gals_core.specs.definitions.OrderRuns.{IsOrderRun};
ghost use Rattle.gals_core.specs.Plans.{logs_of};

use crate::channels::Channels;
use crate::opening::reserve_all;
use crate::turns::take_turns;
use domain_core::Domain;
use java_values::NoMemory;
use kernel_terms::System;
use signal_store::Inputs;
use std::alloc::Global;
use std::marker::Model;
use std::snapshot::Snapshot;
use tick_log::{Log, Run};

/// A scheduled run that may be made: the domains of a system before their first ticks, the number
/// of ticks that each may make, and all the memory that the run needs.
#[derive(Drop)]
pub struct OrderPlan {
    system: Snapshot<System>,
    ticks: Vec<u32>,
    domains: Vec<Domain>,
    channels: Channels,
    logs: Vec<Log>,
}

impl Model for OrderPlan {
    ghost use Rattle.gals_core.specs.definitions.OrderPlans.{PlanView};
    ghost use Rattle.gals_core.specs.Plans.{IsReady};
    ghost use Rattle.kernel_terms.specs.contracts.term.Term as term;
    ghost use Rattle.std.specs.Coded.{codes};

    ghost Value = { PlanView };

    ghost coded = { Prim.hlevel (codes, term.the_row.coded) };

    ghost view = { λ p. record { system = p.system.value; ticks = p.ticks.items } };

    ghost invariant = { λ p. IsReady p.system.value p.ticks.items p.domains.items p.channels p.logs };
}

impl OrderPlan {
    /// The plan of these domains of a system, each of which makes at most its number of ticks. All
    /// the memory of the run is taken here: `NoMemory` says that it was refused.
    pub fn open(
        alloc: Global,
        system: &System,
        domains: Vec<Domain>,
        ticks: &[u32],
    ) -> Result<OrderPlan, NoMemory>
        requires domains { AreDomainsOf system.now domains.items }
        requires ticks { AreBudgets system.now ticks.now }
        ensures { IfOk result (λ plan. plan ≡ record { system = system.now; ticks = ticks.now }) }
    {
        let channels = Channels::open(alloc, system, domains.as_slice(), ticks)?;
        let logs = Vec::with_capacity(alloc, domains.len())?;
        let budgets = ticks.to_vec(alloc)?;
        let mut domains = domains;
        reserve_all(&mut domains, ticks)?;
        Ok(OrderPlan {
            system: Snapshot::of(system),
            ticks: budgets,
            domains,
            channels,
            logs,
        })
    }
}

// The logs of the domains, moved into a list with memory for them.
fn into_logs(domains: Vec<Domain>, room: Vec<Log>) -> Vec<Log>
    requires empty { room.items ≡ [] }
    requires room { length domains.items ≤ vec_capacity room }
    ensures { result.items ≡ logs_of domains.items }
{
    let mut logs = room;
    for domain in domains {
        logs.push_reserved(domain.into_log());
    }
    logs
}

/// The run in which the domains take these turns with what is handed in, none more than its number
/// of ticks. The turn of an ended domain is skipped, and after each tick the domain's channels whose
/// two ends wait are joined, the smallest number first. It takes no memory.
pub fn run_order(system: &System, plan: OrderPlan, turns: &[u32], inputs: &Inputs) -> Run
    requires system { plan.system ≡ system.now }
    requires turns { FitBudgets plan.ticks turns.now }
    ensures run { IsOrderRun system.now (handed inputs.now) turns.now (run_state result) }
    ensures holds { HoldsRun system.now result }
{
    let OrderPlan {
        mut domains,
        mut channels,
        logs,
        ..
    } = plan;
    take_turns(system, turns, inputs, &mut domains, &mut channels);
    Run {
        domains: into_logs(domains, logs),
        channels: channels.into_histories(),
    }
}
