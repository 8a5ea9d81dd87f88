//! The next value of each register, by its sets.

ghost use Rattle.std.specs.Prelude.{◌≡◌, ◌<◌, ◌≤◌, ◌++◌, ◌∷◌, [], suc, IfOk, OnOk, List, ℕ, length};
ghost use Rattle.surf_graph.specs.Copying.{bucket, sets_of};
ghost use Rattle.surf_graph.specs.Framing.{Grows, GrowsBy};
ghost use Rattle.surf_graph.specs.definitions.Copies.{Sets};
ghost use Rattle.surf_graph.specs.definitions.DomainCopies.{set_equations, register_equations, register_wires};
ghost use Rattle.surf_graph.specs.definitions.Formulas as formula;

use crate::builder::Builder;
use crate::copy_builder::Guarded;
use crate::domain_formulas::give_zero;
use crate::formulas::give_choice;
use java_values::{Kind, NoMemory};

// The value of a set where it is on, and else that of the next wire.
fn add_set(builder: &mut Builder, set: Guarded) -> Result<(), NoMemory>
    ensures { OnOk result (Grows builder.old builder.new 1
        (record {
          wire = builder.old.next;
          formula = formula.Choose set.condition set.value (suc builder.old.next);
        } ∷ [])) }
{
    let n = builder.take_own(1)?;
    give_choice(builder, n, set.condition, set.value, n + 1)?;
    Ok(())
}

// 0 where no set is on.
fn add_zero(builder: &mut Builder, kind: Kind) -> Result<(), NoMemory>
    ensures { OnOk result (Grows builder.old builder.new 1
        (record { wire = builder.old.next; formula = formula.Zero kind } ∷ [])) }
{
    let n = builder.take_own(1)?;
    give_zero(builder, n, kind)?;
    Ok(())
}

/// Adds the equations of a register of this kind, by its sets, and answers the wire that it gets.
pub fn add_register(builder: &mut Builder, kind: Kind, sets: &[Guarded]) -> Result<u32, NoMemory>
    ensures first { IfOk result (λ wire. wire ≡ builder.old.next) }
    ensures grows { OnOk result ((ss : List Sets) → sets_of ss ≡ sets.now
        → GrowsBy builder.old builder.new (set_equations kind builder.old.next ss)) }
{
    let first = builder.next;
    for set in sets {
        add_set(builder, *set)?;
    }
    add_zero(builder, kind)?;
    Ok(first)
}

/// Adds the equations of the registers of these kinds, from the first on, by the sets of each, and
/// lists the wires that they get.
pub fn add_registers(
    builder: &mut Builder,
    kinds: &[Kind],
    sets: &[Vec<Guarded>],
    next: &mut Vec<u32>,
) -> Result<(), NoMemory>
    requires { length kinds.now ≤ length sets.now }
    ensures { OnOk result ((f : ℕ → List Sets)
        → ((k : ℕ) → k < length kinds.now → bucket sets.now k ≡ sets_of (f k))
        → GrowsBy builder.old builder.new (register_equations kinds.now 0 builder.old.next f)
        × (next.new.items ≡ next.old.items ++ register_wires kinds.now 0 builder.old.next f)) }
{
    for (r, kind) in kinds.iter().enumerate() {
        let wire = add_register(builder, *kind, &sets[r])?;
        next.push(wire)?;
    }
    Ok(())
}
