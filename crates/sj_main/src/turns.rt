// The turns of a program, and what a run of them weighs.

ghost use Rattle.std.specs.Prelude.{◌≡◌, ◌^◌, ◌<◌, ◌≤◌, ◌++◌, ◌↔◌, ℕ, All, IfOk, IsTrue, OnOk, get_or, length, map, sum_by};
ghost use Rattle.std.specs.List.{range_with_len};
ghost use Rattle.kernel_terms.specs.Systems.{tables_of, domains_of};
ghost use Rattle.kernel_terms.specs.Limits.{most_domains};
ghost use Rattle.kernel_terms.specs.TableEntries.{is_interface_of, numbers_where};
ghost use Rattle.domain_core.specs.definitions.runs.Scheduled.{turns_of};
ghost use Rattle.sj_main.specs.CommandWords.{AreFew};
ghost use Rattle.sj_main.specs.definitions.Commands.{most_turns, rounds_of, FitDomains, budgets_for};
ghost use Rattle.sj_main.specs.definitions.RunWeight.{domain_weight, end_weight, channel_weight, run_weight};

use crate::commands::Turns;
use java_values::NoMemory;
use kernel_terms::{ChannelInfo, SignalInfo, System, Tables};
use std::alloc::Global;

/// Whether each turn is one of so many domains. Rounds always are.
pub fn fit(turns: &Turns, domains: u32) -> bool
    ensures { IsTrue result ↔ FitDomains turns.now domains }
{
    match turns {
        Turns::Rounds(_) => true,
        Turns::Each(each) => each.as_slice().iter().all(|turn| *turn < domains),
    }
}

/// How many turns each of so many domains has.
#[tactic(auto, using(crate::proofs::Budgets::budgets_of_rounds))]
pub fn budgets(alloc: Global, turns: &Turns, domains: u32) -> Result<Vec<u32>, NoMemory>
    requires fit { FitDomains turns.now domains }
    requires few { AreFew turns.now }
    ensures { IfOk result (λ budgets. budgets.items ≡ budgets_for turns.now domains) }
{
    match turns {
        Turns::Rounds(rounds) => Ok(vec![in alloc; *rounds; domains as usize]?),
        Turns::Each(each) => counts(alloc, each.as_slice(), domains),
    }
}

// How many of the turns are those of each of so many domains.
#[tactic(auto, using(crate::proofs::Budgets::counting))]
fn counts(alloc: Global, turns: &[u32], domains: u32) -> Result<Vec<u32>, NoMemory>
    requires fit { All (λ turn. turn < domains) turns.now }
    requires few { (d : ℕ) → turns_of d turns.now ≤ most_turns }
    ensures { IfOk result (λ counts. counts.items ≡
        map (λ d. turns_of d turns.now) (range_with_len 0 domains)) }
{
    let mut counts = vec![in alloc; 0u32; domains as usize]?;
    for turn in turns {
        counts[*turn as usize] += 1;
    }
    Ok(counts)
}

/// So many rounds of so many domains, as turns one by one.
#[tactic(auto, using(crate::proofs::Budgets::listing))]
pub fn list_rounds(alloc: Global, rounds: u32, domains: u32) -> Result<Vec<u32>, NoMemory>
    ensures { IfOk result (λ list. list.items ≡ rounds_of rounds domains) }
{
    let mut list = Vec::with_capacity(alloc, rounds as usize * domains as usize)?;
    for _round in 0..rounds {
        push_round(&mut list, domains)?;
    }
    Ok(list)
}

// One more turn of each of so many domains.
#[tactic(auto, using(crate::proofs::Budgets::listing))]
fn push_round(list: &mut Vec<u32>, domains: u32) -> Result<(), NoMemory>
    ensures { OnOk result (list.new.items ≡ list.old.items ++ range_with_len 0 domains) }
{
    for domain in 0..domains {
        list.push(domain)?;
    }
    Ok(())
}

/// What a run of these budgets weighs.
#[tactic(auto, using(crate::proofs::RunWeights::small_weights))]
pub fn run_weight(system: &System, budgets: &[u32]) -> u64
    requires count { length budgets.now ≡ length (domains_of system.now) }
    requires few { (d : ℕ) → get_or budgets.now d 0 ≤ most_turns }
    ensures { result ≡ run_weight (tables_of system.now) budgets.now }
{
    let tables = system.tables();
    domains_weight(tables, budgets) + channels_weight(tables.channels.as_slice(), budgets)
}

// What the domains add to the weight.
fn domains_weight(tables: &Tables, budgets: &[u32]) -> u64
    requires domains { length budgets.now ≤ most_domains }
    requires small { sum_by (domain_weight tables.now budgets.now)
        (range_with_len 0 (length budgets.now)) < 2 ^ 63 }
    ensures { result ≡
        sum_by (domain_weight tables.now budgets.now) (range_with_len 0 (length budgets.now)) }
{
    let mut weight = 0;
    for domain in 0..budgets.len() {
        let signals = interface_count(tables.signals.as_slice(), domain as u32);
        weight += u64::from(budgets[domain]) * (signals as u64 + 1);
    }
    weight
}

// How many interface signals a domain has.
#[tactic(auto, using(crate::proofs::RunWeights::counting_numbers))]
fn interface_count(signals: &[SignalInfo], domain: u32) -> usize
    ensures value { result ≡ length (numbers_where (is_interface_of domain) 0 signals.now) }
    ensures within { result ≤ length signals.now }
{
    signals
        .iter()
        .filter(|signal| signal.is_of_interface(u64::from(domain)))
        .count()
}

// What the ends of the channels add.
fn channels_weight(channels: &[ChannelInfo], budgets: &[u32]) -> u64
    requires { sum_by (channel_weight budgets.now) channels.now < 2 ^ 63 }
    ensures { result ≡ sum_by (channel_weight budgets.now) channels.now }
{
    channels
        .iter()
        .map(|channel| end_weight(budgets, channel.sender) + end_weight(budgets, channel.receiver))
        .sum()
}

fn end_weight(budgets: &[u32], domain: u32) -> u64
    ensures value { result ≡ end_weight budgets.now domain }
    ensures small { result < 2 ^ 34 }
{
    let budget = budgets.get(domain as usize).copied().unwrap_or(0);
    2 * u64::from(budget) + 1
}
