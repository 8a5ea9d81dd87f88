//! The operations of further formulas of a copy, each for a wire that is given.

ghost use Rattle.std.specs.Prelude.{OnOk};
ghost use Rattle.surf_graph.specs.definitions.Formulas as formula;
ghost use Rattle.surf_graph.specs.definitions.SpelledOut.{spelled};
ghost use Rattle.surf_graph.specs.Building.{Writes};

use java_values::NoMemory;
use surf_graph::Builder;
use wire_code::Formula;

/// Gives a wire what a register had.
pub fn give_register(builder: &mut Builder, wire: u32, register: u32) -> Result<(), NoMemory>
    ensures { OnOk result (Writes builder.old builder.new
        (spelled builder.old.further (formula.Get register)) wire) }
{
    builder.push(wire, Formula::Get(register))
}

/// Gives a wire whether the first is on and the second isn't.
pub fn give_and_not(builder: &mut Builder, wire: u32, a: u32, b: u32) -> Result<(), NoMemory>
    ensures { OnOk result (Writes builder.old builder.new
        (spelled builder.old.further (formula.AndNot a b)) wire) }
{
    let n = builder.add(Formula::Not(b))?;
    builder.push(wire, Formula::And(a, n))
}
