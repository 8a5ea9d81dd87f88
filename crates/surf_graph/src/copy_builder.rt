//! What the copy of a statement is written to.

ghost use Rattle.std.specs.Prelude.{◌≡◌, ◌<◌, ◌++◌, ◌∷◌, [], IfOk, OnOk, length, get_or, set};
ghost use Rattle.surf_graph.specs.Copying.{buckets};

use crate::builder::Builder;
use crate::change::Change;
use crate::wire_tables::WireTables;
use java_values::NoMemory;

/// The wire of a value, and that of whether it is given.
#[derive(Clone, Copy, Debug, Drop)]
pub struct Guarded {
    pub condition: u32,
    pub value: u32,
}

/// The operations so far, the wires that expressions read now, with the changes of those of
/// variables, and for each signal its emissions and for each register its sets, in order.
#[derive(Drop)]
pub struct CopyBuilder {
    pub builder: Builder,
    pub wires: WireTables,
    pub changes: Vec<Change>,
    pub emits: Vec<Vec<Guarded>>,
    pub sets: Vec<Vec<Guarded>>,
}

/// Wires that a copy is given: where it ticks, where it is held, and whether what it leaves is kept.
/// And the number of its first register.
#[derive(Clone, Copy, Debug, Drop)]
pub struct Given {
    pub go: u32,
    pub hold: u32,
    pub keep: u32,
    pub register: u32,
}

/// The wires of a copy's status and of whether it is live, whether its statement may end, and then
/// the number of the first register behind its own.
#[derive(Clone, Copy, Debug, Drop)]
pub struct Made {
    pub status: u32,
    pub live: u32,
    pub ends: bool,
    pub register: u32,
}

/// The first own wire of a sequence, and the wire of the status of its first part.
#[derive(Clone, Copy, Debug, Drop)]
pub struct Turn {
    pub own: u32,
    pub status: u32,
}

/// Adds a value to the list of this number.
pub fn add_guarded(
    lists: &mut Vec<Vec<Guarded>>,
    at: u32,
    condition: u32,
    value: u32,
) -> Result<(), NoMemory>
    requires within { at < length lists.old.items }
    ensures { OnOk result (buckets lists.new.items ≡ set (buckets lists.old.items) at
        (get_or (buckets lists.old.items) at [] ++
        record { condition = condition; value = value } ∷ [])) }
{
    lists[at as usize].push(Guarded { condition, value })?;
    Ok(())
}

/// Gives a variable another wire, and logs which wire it had.
pub fn change_wire(
    b: &mut CopyBuilder,
    variable: u32,
    before: u32,
    wire: u32,
) -> Result<(), NoMemory>
    requires within { variable < length b.old.wires.variables.items }
    ensures variables { OnOk result (b.new.wires.variables.items ≡
        set b.old.wires.variables.items variable wire) }
    ensures changes { OnOk result (b.new.changes.items ≡ b.old.changes.items ++
        record { variable = variable; before = before } ∷ []) }
    ensures present { b.new.wires.present ≡ b.old.wires.present }
    ensures value { b.new.wires.value ≡ b.old.wires.value }
    ensures last { b.new.wires.last ≡ b.old.wires.last }
    ensures builder { b.new.builder ≡ b.old.builder }
    ensures emits { b.new.emits ≡ b.old.emits }
    ensures sets { b.new.sets ≡ b.old.sets }
{
    b.changes.push(Change { variable, before })?;
    b.wires.variables[variable as usize] = wire;
    Ok(())
}
