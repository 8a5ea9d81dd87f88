//! The emissions of one signal, in order, as its presence and its value.

ghost use Rattle.std.specs.Prelude.{◌≡◌, ◌+◌, [], OnOk, IfOk, List, ℕ};
ghost use Rattle.surf_graph.specs.Copying.{emits_of};
ghost use Rattle.surf_graph.specs.Framing.{FoldsInto, emission_of, condition_step};
ghost use Rattle.surf_graph.specs.definitions.Copies.{Emits, fold_step, fold_emits};
ghost use Rattle.surf_graph.specs.definitions.DomainCopies.{fold_conditions, folded_as};

use crate::builder::Builder;
use crate::copy_builder::Guarded;
use crate::domain_formulas::{give_combined, give_or};
use crate::formulas::give_choice;
use java_values::NoMemory;
use kernel_terms::SignalInfo;

/// The wires of whether some emission was on, and of the combination of those that were.
#[derive(Clone, Copy, Debug, Drop)]
pub struct Emitted {
    pub some: u32,
    pub value: u32,
}

// One emission more of a valued signal.
fn add_emission(
    builder: &mut Builder,
    info: &SignalInfo,
    so_far: Emitted,
    e: Guarded,
) -> Result<Emitted, NoMemory>
    ensures { IfOk result (λ r. FoldsInto builder.old builder.new
        (fold_step info.now builder.old.next so_far.some so_far.value (emission_of 0 e)
        (record {
          equations = [];
          some = builder.old.next + 2;
          value = builder.old.next + 1;
        })) r) }
{
    let n = builder.take_own(3)?;
    give_combined(builder, n, info, so_far.some, so_far.value, e.value)?;
    give_choice(builder, n + 1, e.condition, n, so_far.value)?;
    give_or(builder, n + 2, so_far.some, e.condition)?;
    Ok(Emitted {
        some: n + 2,
        value: n + 1,
    })
}

/// Adds the equations of a valued signal's emissions, by the wire of its value before.
pub fn add_emissions(
    builder: &mut Builder,
    info: &SignalInfo,
    before: u32,
    emitted: &[Guarded],
) -> Result<Emitted, NoMemory>
    ensures { IfOk result (λ r. (s : ℕ) (es : List Emits) → emits_of s es ≡ emitted.now
        → FoldsInto builder.old builder.new
        (fold_emits info.now s builder.old.next 0 before es) r) }
{
    let mut so_far = Emitted {
        some: 0,
        value: before,
    };
    for e in emitted {
        so_far = add_emission(builder, info, so_far, *e)?;
    }
    Ok(so_far)
}

// One emission more of a pure signal.
fn add_condition(builder: &mut Builder, some: u32, e: Guarded) -> Result<u32, NoMemory>
    ensures { IfOk result (λ wire. FoldsInto builder.old builder.new
        (condition_step builder.old.next some e
        (record { equations = []; some = builder.old.next; value = 0 }))
        (record { some = wire; value = 0 })) }
{
    let n = builder.take_own(1)?;
    give_or(builder, n, some, e.condition)?;
    Ok(n)
}

/// Adds the equations of a pure signal's emissions. It has the value 0.
pub fn add_conditions(builder: &mut Builder, emitted: &[Guarded]) -> Result<Emitted, NoMemory>
    ensures { IfOk result (λ r. (s : ℕ) (es : List Emits) → emits_of s es ≡ emitted.now
        → FoldsInto builder.old builder.new (fold_conditions s builder.old.next 0 es) r) }
{
    let mut some = 0;
    for e in emitted {
        some = add_condition(builder, some, *e)?;
    }
    Ok(Emitted { some, value: 0 })
}

/// Adds the equations of a signal's emissions, by the wire of its value before.
pub fn add_status(
    builder: &mut Builder,
    info: &SignalInfo,
    before: u32,
    emitted: &[Guarded],
) -> Result<Emitted, NoMemory>
    ensures { IfOk result (λ r. (s : ℕ) (es : List Emits) → emits_of s es ≡ emitted.now
        → FoldsInto builder.old builder.new
        (folded_as info.now info.now.kind s builder.old.next before es) r) }
{
    match info.kind {
        Some(_) => add_emissions(builder, info, before, emitted),
        None => add_conditions(builder, emitted),
    }
}
