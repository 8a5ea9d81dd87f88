// The parts of the channels before the first turn.

ghost use Rattle.std.specs.Prelude.{◌≡◌, ◌+◌, ◌^◌, ◌<◌, ◌≤◌, ℕ, length, get_or, map, replicate, IfOk, All};
ghost use Rattle.tick_log.specs.definitions.Fits.{most_ticks};
ghost use Rattle.cell_core.specs.definitions.Cells.{empty_cell};
ghost use Rattle.domain_core.specs.definitions.step.Domains.{DomainView, ends_in, tick_count_of};
ghost use Rattle.gals_core.specs.Channels.{lists_in};
ghost use Rattle.gals_core.specs.Opening.{opened_history, IsWithin, Reserves};

use cell_core::Cell;
use domain_core::{Domain, EndOf};
use java_values::NoMemory;
use kernel_terms::ChannelInfo;
use std::alloc::Global;
use tick_log::History;

/// So many cells at which no side stands.
pub fn open_cells(alloc: Global, count: usize) -> Result<Vec<Cell>, NoMemory>
    ensures { IfOk result (λ v. v.items ≡ replicate count empty_cell) }
{
    let mut cells = Vec::with_capacity(alloc, count)?;
    for at in 0..count {
        cells.push(Cell::new())?;
    }
    Ok(cells)
}

fn open_history(alloc: Global, info: &ChannelInfo, ticks: &[u32]) -> Result<History, NoMemory>
    requires within { IsWithin (length ticks.now) info.now }
    requires few { (d : ℕ) → get_or ticks.now d 0 ≤ most_ticks }
    ensures { IfOk result (λ h. h ≡ opened_history ticks.now info.now) }
{
    let sent = ticks[info.sender as usize];
    let received = ticks[info.receiver as usize];
    History::open(alloc, 2 + sent + received)
}

/// A history for each channel, with room for more joins than these numbers of ticks can make.
pub fn open_histories(
    alloc: Global,
    infos: &[ChannelInfo],
    ticks: &[u32],
) -> Result<Vec<History>, NoMemory>
    requires within { All (IsWithin (length ticks.now)) infos.now }
    requires few { (d : ℕ) → get_or ticks.now d 0 ≤ most_ticks }
    ensures { IfOk result (λ v. v.items ≡ map (opened_history ticks.now) infos.now) }
{
    let mut histories = Vec::with_capacity(alloc, infos.len())?;
    for info in infos {
        histories.push(open_history(alloc, info, ticks)?)?;
    }
    Ok(histories)
}

/// The ends of each domain.
pub fn open_lists(alloc: Global, domains: &[Domain]) -> Result<Vec<Vec<EndOf>>, NoMemory>
    ensures { IfOk result (λ v. lists_in v.items ≡ map ends_in domains.now) }
{
    let mut lists = Vec::with_capacity(alloc, domains.len())?;
    for domain in domains {
        lists.push(domain.ends().to_vec(alloc)?)?;
    }
    Ok(lists)
}

/// Memory for at least its number of ticks more for each domain.
pub fn reserve_all(domains: &mut Vec<Domain>, ticks: &[u32]) -> Result<(), NoMemory>
    requires count { length domains.old.items ≡ length ticks.now }
    requires few { (d : ℕ) (v : DomainView) → d < length ticks.now →
        tick_count_of (get_or domains.old.items d v) + get_or ticks.now d 0 < 2 ^ 32 }
    ensures { IfOk result (λ _. Reserves ticks.now (length domains.old.items) domains.old.items
        domains.new.items) }
{
    for at in 0..domains.len() {
        domains[at].reserve(ticks[at])?;
    }
    Ok(())
}
