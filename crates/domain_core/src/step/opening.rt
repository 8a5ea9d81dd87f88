// The parts of a compiled domain.

ghost use Rattle.std.specs.Prelude.{◌≡◌, ◌+◌, ◌^◌, ◌<◌, ◌≤◌, [], length, IfOk, replicate, false, pos};
ghost use Rattle.std.specs.List.{range_with_len};
ghost use Rattle.kernel_terms.specs.TableEntries.{is_interface_of, is_valued_of, numbers_where, variables_of, valued_of, received_by};
ghost use Rattle.domain_core.specs.step.DomainKeeps.{HasScratch};
ghost use Rattle.domain_core.specs.definitions.step.Domains.{ends_from};
ghost use Rattle.domain_core.specs.step.JoinLists.{joins_in};

use crate::step::ends_of::{EndJoin, EndOf};
use crate::step::parts::{Program, Scratch, State};
use cell_core::Side;
use java_values::NoMemory;
use kernel_terms::{ChannelInfo, SignalInfo, Tables};
use std::alloc::Global;

/// The ends that a domain has, in order of channel number.
#[tactic(auto, using(crate::proofs::lemmas::step::CompileLists::list_steps))]
pub fn list_ends(
    alloc: Global,
    channels: &[ChannelInfo],
    domain: u32,
) -> Result<Vec<EndOf>, NoMemory>
    requires { length channels.now < 2 ^ 32 }
    ensures all { IfOk result (λ v. v.items ≡ ends_from domain 0 channels.now) }
    ensures few { IfOk result (λ v. length v.items ≤ length channels.now) }
{
    let mut ends = Vec::new(alloc);
    for (at, channel) in channels.iter().enumerate() {
        let number = at as u32;
        if channel.sender == domain {
            ends.push(EndOf {
                channel: number,
                side: Side::Sender,
            })?;
        } else if channel.receiver == domain {
            ends.push(EndOf {
                channel: number,
                side: Side::Receiver,
            })?;
        }
    }
    Ok(ends)
}

/// The interface signals of a domain, in order of declaration.
#[tactic(auto, using(crate::proofs::lemmas::step::CompileLists::list_steps))]
pub fn list_signals(
    alloc: Global,
    signals: &[SignalInfo],
    domain: u32,
) -> Result<Vec<u32>, NoMemory>
    requires { length signals.now < 2 ^ 32 }
    ensures numbers { IfOk result (λ v. v.items ≡
        numbers_where (is_interface_of domain) 0 signals.now) }
    ensures few { IfOk result (λ v. length v.items ≤ length signals.now) }
{
    let mut numbers = Vec::new(alloc);
    for (at, signal) in signals.iter().enumerate() {
        let number = at as u32;
        if signal.is_of_interface(u64::from(domain)) {
            numbers.push(number)?;
        }
    }
    Ok(numbers)
}

/// How many variables a domain has.
#[tactic(auto, using(crate::proofs::lemmas::step::CompileLists::counting))]
pub fn count_variables(tables: &Tables, domain: u32) -> usize
    ensures { result ≡ length (variables_of tables.now domain) }
{
    let variables = tables.variables.as_slice();
    variables
        .iter()
        .filter(|variable| variable.domain == domain)
        .count()
}

fn is_valued_of(domain: u32, signal: &SignalInfo) -> bool
    ensures { result ≡ is_valued_of domain signal.now }
{
    signal.is_of_interface(u64::from(domain)) && signal.kind.is_some()
}

/// How many interface signals of a domain have a value.
#[tactic(auto, using(crate::proofs::lemmas::step::CompileLists::counting))]
pub fn count_values(tables: &Tables, domain: u32) -> usize
    ensures count { result ≡ length (valued_of tables.now domain) }
    ensures few { result ≤ length tables.now.signals }
{
    let signals = tables.signals.as_slice();
    signals
        .iter()
        .filter(|signal| is_valued_of(domain, signal))
        .count()
}

/// On how many channels a domain receives.
#[tactic(auto, using(crate::proofs::lemmas::step::CompileLists::counting))]
pub fn count_received(tables: &Tables, domain: u32) -> usize
    ensures count { result ≡ length (received_by tables.now domain) }
    ensures few { result ≤ length tables.now.channels }
{
    let channels = tables.channels.as_slice();
    channels
        .iter()
        .filter(|channel| channel.receiver == domain)
        .count()
}

/// So many numbers, from the first on.
#[tactic(auto, using(crate::proofs::lemmas::step::CompileLists::range_more))]
pub fn numbers_from(alloc: Global, first: u32, count: u32) -> Result<Vec<u32>, NoMemory>
    requires { first + count < 2 ^ 32 }
    ensures { IfOk result (λ v. v.items ≡ range_with_len first count) }
{
    let mut numbers = Vec::new(alloc);
    for at in 0..count {
        numbers.push(first + at)?;
    }
    Ok(numbers)
}

/// An empty list of joins for each end.
#[tactic(auto, using(crate::proofs::lemmas::step::CompileLists::list_steps))]
pub fn empty_lists(alloc: Global, count: usize) -> Result<Vec<Vec<EndJoin>>, NoMemory>
    ensures { IfOk result (λ v. joins_in v.items ≡ replicate count []) }
{
    let mut lists = Vec::new(alloc);
    for at in 0..count {
        lists.push(Vec::new(alloc))?;
    }
    Ok(lists)
}

/// The state before the first tick.
pub fn open_state(alloc: Global, registers: usize, ends: usize) -> Result<State, NoMemory>
    ensures registers { IfOk result (λ s. s.registers.items ≡ replicate registers (pos 0)) }
    ensures standing { IfOk result (λ s. s.standing.items ≡ replicate ends false) }
    ensures joins { IfOk result (λ s. joins_in s.joins.items ≡ replicate ends []) }
    ensures stamp { IfOk result (λ s. s.stamp ≡ 0) }
    ensures cause { IfOk result (λ s. s.cause ≡ 0) }
    ensures stopped { IfOk result (λ s. s.stopped ≡ false) }
{
    Ok(State {
        registers: vec![in alloc; 0i64; registers]?,
        standing: vec![in alloc; false; ends]?,
        joins: empty_lists(alloc, ends)?,
        stamp: 0,
        cause: 0,
        stopped: false,
    })
}

/// The memory for one step.
pub fn open_scratch(alloc: Global, program: &Program) -> Result<Scratch, NoMemory>
    ensures { IfOk result (HasScratch program.now) }
{
    let ends = program.ends.len();
    let signals = program.codes.signal_count();
    Ok(Scratch {
        answers: vec![in alloc; None; ends]?,
        replies: vec![in alloc; None; ends]?,
        asks: vec![in alloc; None; ends]?,
        wires: vec![in alloc; 0i64; program.codes.wire_count()]?,
        present: vec![in alloc; false; signals]?,
        zeros: vec![in alloc; 0i64; signals]?,
    })
}
