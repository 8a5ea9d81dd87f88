//! What is read of the frame.

ghost use Rattle.std.specs.Prelude.{◌≡◌, ◌+◌, ◌≤◌, ◌^◌, OnOk, List, ℕ, length};
ghost use Rattle.surf_graph.specs.Framing.{Grows};
ghost use Rattle.surf_graph.specs.definitions.DomainCopies.{places_read};

use crate::builder::Builder;
use crate::domain_formulas::give_place;
use java_values::NoMemory;

/// Gives so many wires, from this one on, the places of the frame from that one on.
pub fn read_places(builder: &mut Builder, wire: u32, place: u32, count: u32) -> Result<(), NoMemory>
    requires wires { wire + count ≤ 2 ^ 32 }
    requires places { place + count ≤ 2 ^ 32 }
    ensures { OnOk result ((is : List ℕ) → length is ≡ count
        → Grows builder.old builder.new 0 (places_read is wire place)) }
{
    for i in 0..count {
        give_place(builder, wire + i, place + i)?;
    }
    Ok(())
}
