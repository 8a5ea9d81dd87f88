//! The statuses of a domain's interface signals.

ghost use Rattle.std.specs.Prelude.{◌≡◌, ◌+◌, ◌*◌, ◌≤◌, ◌<◌, ◌^◌, cond, is_some, IfOk, OnOk, List, ℕ, length};
ghost use Rattle.std.specs.List.{All};
ghost use Rattle.kernel_terms.specs.Statements.{Stmt};
ghost use Rattle.kernel_terms.specs.TableEntries as entries;
ghost use Rattle.surf_graph.specs.Copying.{bucket, emits_of};
ghost use Rattle.surf_graph.specs.Framing.{Grows, input_equations, output_equations, place_before};
ghost use Rattle.surf_graph.specs.Framing.{wires_folded, IsFrame, GrowsBy};
ghost use Rattle.surf_graph.specs.definitions.Copies.{Emits};
ghost use Rattle.surf_graph.specs.definitions.DomainCopies.{folded_as, all_statuses};
ghost use Rattle.surf_graph.specs.definitions.SpelledOut.{spelled};
ghost use Rattle.surf_graph.specs.Building.{Writes};

use crate::builder::Builder;
use crate::copy_builder::Guarded;
use crate::domain_formulas::{give_place, give_same};
use crate::emissions::add_status;
use crate::formulas::give_constant;
use java_values::NoMemory;
use kernel_terms::{SignalInfo, Sort, Tables};

/// The wires of a signal's presence, of its value, and of its value before.
#[derive(Clone, Copy, Debug, Drop)]
pub struct StatusWires {
    pub present: u32,
    pub value: u32,
    pub before: u32,
}

/// The places in the frame of the next input's presence, and of the next value of a signal.
#[derive(Clone, Copy, Debug, Drop)]
pub struct StatusPlaces {
    pub input: u32,
    pub value: u32,
}

// Gives a wire the value before, which is in the frame unless the signal is pure.
fn give_before(
    builder: &mut Builder,
    wire: u32,
    info: &SignalInfo,
    place: u32,
) -> Result<(), NoMemory>
    ensures { OnOk result (Writes builder.old builder.new
        (spelled builder.old.further (place_before info.now.kind place)) wire) }
{
    match info.kind {
        Some(_) => give_place(builder, wire, place),
        None => give_constant(builder, wire, 0),
    }
}

// An input, by the frame.
fn give_input(builder: &mut Builder, at: StatusWires, place: u32) -> Result<(), NoMemory>
    requires { place + 1 < 2 ^ 32 }
    ensures { OnOk result
        (Grows builder.old builder.new 0 (input_equations at.present at.value place)) }
{
    give_place(builder, at.present, place)?;
    give_place(builder, at.value, place + 1)?;
    Ok(())
}

// An output, by its emissions.
fn give_output(
    builder: &mut Builder,
    info: &SignalInfo,
    emitted: &[Guarded],
    at: StatusWires,
    place: u32,
) -> Result<(), NoMemory>
    ensures { OnOk result ((s : ℕ) (es : List Emits) → emits_of s es ≡ emitted.now
        → Grows builder.old builder.new
        (length (folded_as info.now info.now.kind s builder.old.next at.before es).equations)
        (output_equations at.present at.value at.before (place_before info.now.kind place)
        (folded_as info.now info.now.kind s builder.old.next at.before es))) }
{
    let folded = add_status(builder, info, at.before, emitted)?;
    give_same(builder, at.present, folded.some)?;
    give_same(builder, at.value, folded.value)?;
    give_before(builder, at.before, info, place)?;
    Ok(())
}

fn is_handed_in(info: &SignalInfo) -> bool
    ensures { result ≡ entries.is_input info.now.sort }
{
    matches!(info.sort, Sort::Input)
}

// One signal.
fn give_status_of(
    builder: &mut Builder,
    info: &SignalInfo,
    emitted: &[Guarded],
    at: StatusWires,
    places: StatusPlaces,
) -> Result<(), NoMemory>
    requires { places.input + 1 < 2 ^ 32 }
    ensures { OnOk result ((s : ℕ) (es : List Emits) → emits_of s es ≡ emitted.now
        → Grows builder.old builder.new (wires_folded info.now s builder.old.next at.before es)
        (cond (entries.is_input info.now.sort)
        (input_equations at.present at.value places.input)
        (output_equations at.present at.value at.before
        (place_before info.now.kind places.value)
        (folded_as info.now info.now.kind s builder.old.next at.before es)))) }
{
    if is_handed_in(info) {
        give_input(builder, at, places.input)
    } else {
        give_output(builder, info, emitted, at, places.value)
    }
}

// Counts the equations that a signal has beside those of its emissions.
fn count_beside(others: u32, info: &SignalInfo) -> Result<u32, NoMemory>
    ensures { IfOk result (λ count. count ≡
        others + cond (entries.is_input info.now.sort) 2 3) }
{
    let more: u32 = if is_handed_in(info) { 2 } else { 3 };
    others.checked_add(more).ok_or(NoMemory)
}

// The wires of the next signal.
fn next_wires(at: StatusWires) -> StatusWires
    requires present { at.present + 1 < 2 ^ 32 }
    requires value { at.value + 1 < 2 ^ 32 }
    requires before { at.before + 1 < 2 ^ 32 }
    ensures present { result.present ≡ at.present + 1 }
    ensures value { result.value ≡ at.value + 1 }
    ensures before { result.before ≡ at.before + 1 }
{
    StatusWires {
        present: at.present + 1,
        value: at.value + 1,
        before: at.before + 1,
    }
}

// The places behind those of this signal.
fn next_places(info: &SignalInfo, places: StatusPlaces) -> StatusPlaces
    requires input { places.input + 2 < 2 ^ 32 }
    requires value { places.value + 1 < 2 ^ 32 }
    ensures input { result.input ≡
        places.input + 2 * cond (entries.is_input info.now.sort) 1 0 }
    ensures value { result.value ≡ places.value + cond (is_some info.now.kind) 1 0 }
{
    let input = if is_handed_in(info) {
        places.input + 2
    } else {
        places.input
    };
    let value = if info.kind.is_some() {
        places.value + 1
    } else {
        places.value
    };
    StatusPlaces { input, value }
}

/// Gives the interface signals of a domain, in order, their presence and their value, on wires from
/// these on: inputs by the frame, and outputs by their emissions. As many own wires are taken as there
/// are equations.
pub fn give_statuses(
    builder: &mut Builder,
    tables: &Tables,
    interface: &[u32],
    emits: &[Vec<Guarded>],
    wires: StatusWires,
    places: StatusPlaces,
) -> Result<(), NoMemory>
    requires known { All (λ s. s < length tables.now.signals) interface.now }
    requires buckets { length tables.now.signals ≤ length emits.now }
    requires present { wires.present + length interface.now < 2 ^ 32 }
    requires value { wires.value + length interface.now < 2 ^ 32 }
    requires before { wires.before + length interface.now < 2 ^ 32 }
    requires inputs { places.input + 2 * length interface.now < 2 ^ 32 }
    requires values { places.value + length interface.now < 2 ^ 32 }
    ensures { OnOk result ((d : ℕ) (p : Stmt) (es : List Emits)
        → IsFrame tables.now d p interface.now places es
        → ((s : ℕ) → bucket emits.now s ≡ emits_of s es)
        → GrowsBy builder.old builder.new (all_statuses tables.now d p interface.now wires.present
        wires.value wires.before builder.old.next es)) }
{
    let mut at = wires;
    let mut left = places;
    let mut others: u32 = 0;
    for s in interface {
        let info = &tables.signals.as_slice()[*s as usize];
        give_status_of(builder, info, emits[*s as usize].as_slice(), at, left)?;
        at = next_wires(at);
        left = next_places(info, left);
        others = count_beside(others, info)?;
    }
    builder.take_own(others)?;
    Ok(())
}
