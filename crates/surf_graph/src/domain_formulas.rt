//! The operations of formulas around a domain's copy, each for a wire that is given.

ghost use Rattle.std.specs.Prelude.{OnOk};
ghost use Rattle.surf_graph.specs.definitions.Formulas as formula;
ghost use Rattle.surf_graph.specs.definitions.SpelledOut.{spelled};
ghost use Rattle.surf_graph.specs.Building.{Writes};

use crate::builder::Builder;
use crate::statuses::add_combined;
use java_values::{Kind, NoMemory};
use kernel_terms::SignalInfo;
use wire_code::Formula;

/// Gives a wire what the frame has at this place.
pub fn give_place(builder: &mut Builder, wire: u32, place: u32) -> Result<(), NoMemory>
    ensures { OnOk result (Writes builder.old builder.new
        (spelled builder.old.further (formula.Get place)) wire) }
{
    builder.push(wire, Formula::Get(place))
}

/// Gives a wire the value of another.
pub fn give_same(builder: &mut Builder, wire: u32, a: u32) -> Result<(), NoMemory>
    ensures { OnOk result (Writes builder.old builder.new
        (spelled builder.old.further (formula.Same a)) wire) }
{
    builder.push(wire, Formula::Choose(0, a, a))
}

/// Gives a wire whether one of these is on.
pub fn give_or(builder: &mut Builder, wire: u32, a: u32, b: u32) -> Result<(), NoMemory>
    ensures { OnOk result (Writes builder.old builder.new
        (spelled builder.old.further (formula.Or a b)) wire) }
{
    builder.push(wire, Formula::Or(a, b))
}

/// Gives a wire 0 of this kind.
pub fn give_zero(builder: &mut Builder, wire: u32, kind: Kind) -> Result<(), NoMemory>
    ensures { OnOk result (Writes builder.old builder.new
        (spelled builder.old.further (formula.Zero kind)) wire) }
{
    let n = builder.add(Formula::Const(0))?;
    builder.push(wire, Formula::Cast(kind, kind, n))
}

/// Gives a wire the value of an emission, combined with the value so far where there was one.
pub fn give_combined(
    builder: &mut Builder,
    wire: u32,
    info: &SignalInfo,
    some: u32,
    so_far: u32,
    value: u32,
) -> Result<(), NoMemory>
    ensures { OnOk result (Writes builder.old builder.new
        (spelled builder.old.further (formula.Combine info.now some so_far value)) wire) }
{
    let kind = info.kind.unwrap_or(Kind::Boolean);
    let both = add_combined(builder, info.combine, kind, so_far, value)?;
    builder.push(wire, Formula::Choose(some, both, value))
}
