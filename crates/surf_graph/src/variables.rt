//! The wires of variables, changed with a log by which changes are undone.

ghost use Rattle.std.specs.Prelude.{◌≡◌, ◌<◌, ◌≤◌, ◌++◌, ◌∷◌, [], IfOk, OnOk, ℕ};
ghost use Rattle.std.specs.Prelude.{length, slice_index, set, take, drop, IsSome, List};
ghost use Rattle.std.specs.BTreeMap.{get};
ghost use Rattle.std.specs.Ordering.{nat_cmp};
ghost use Rattle.surf_graph.specs.Variables.{FitChanges, FitLast, UndoesLast, HasWires};
ghost use Rattle.surf_graph.specs.Variables.{FitVariables, JoinsWire, JoinsOne, FirstLeft, Joined};
ghost use Rattle.surf_graph.specs.definitions.Changes.{undone};

use crate::builder::Builder;
use crate::change::Change;
use crate::formulas::give_choice;
use crate::wire_tables::wire_at;
use java_values::NoMemory;
use std::alloc::Global;
use std::collections::BTreeMap;

/// Gives a variable another wire, and logs the one that it had.
pub fn set_wire(
    variables: &mut Vec<u32>,
    changes: &mut Vec<Change>,
    variable: u32,
    wire: u32,
) -> Result<(), NoMemory>
    requires within { variable < length variables.old.items }
    ensures wires { OnOk result (variables.new.items ≡ set variables.old.items variable wire) }
    ensures logged { OnOk result (changes.new.items ≡ changes.old.items ++
        record {
          variable = variable;
          before = slice_index variables.old.items variable;
        } ∷ []) }
{
    let at = variable as usize;
    let before = variables[at];
    changes.push(Change { variable, before })?;
    variables[at] = wire;
    Ok(())
}

// The wires of the variables of these changes.
fn wires_of(
    alloc: Global,
    variables: &[u32],
    changes: &[Change],
) -> Result<BTreeMap<u32, u32>, NoMemory>
    ensures { IfOk result (λ left. HasWires changes.now variables.now left) }
{
    let mut left = BTreeMap::new(alloc);
    for change in changes {
        left.insert(change.variable, wire_at(variables, change.variable))?;
    }
    Ok(left)
}

// Undoes the last change.
fn undo_last(variables: &mut Vec<u32>, changes: &mut Vec<Change>)
    requires within { FitLast (length variables.old.items) changes.old.items }
    ensures { UndoesLast variables.old.items changes.old.items variables.new.items
        changes.new.items }
{
    if let Some(change) = changes.pop() {
        variables[change.variable as usize] = change.before;
    }
}

/// Undoes the changes that were logged from `mark` on, and answers the wires that their variables had.
pub fn undo(
    alloc: Global,
    variables: &mut Vec<u32>,
    changes: &mut Vec<Change>,
    mark: usize,
) -> Result<BTreeMap<u32, u32>, NoMemory>
    requires mark { mark ≤ length changes.old.items }
    requires within { FitChanges (length variables.old.items) (drop mark changes.old.items) }
    ensures left { IfOk result (λ left.
        HasWires (drop mark changes.old.items) variables.old.items left) }
    ensures kept { OnOk result (changes.new.items ≡ take mark changes.old.items) }
    ensures count { OnOk result (length variables.new.items ≡ length variables.old.items) }
    ensures undone { OnOk result ((x : ℕ) → slice_index variables.new.items x ≡
        undone (drop mark changes.old.items) (λ y. slice_index variables.old.items y) x) }
{
    let left = wires_of(alloc, variables, &changes[mark..])?;
    while changes.len() > mark {
        undo_last(variables, changes);
    }
    Ok(left)
}

// The wire that a variable of the first alternative has after both. The second alternative gave it
// one from `first_own` on, or none.
fn joined_wire(
    builder: &mut Builder,
    other: u32,
    first: u32,
    second: u32,
    first_own: u32,
) -> Result<u32, NoMemory>
    ensures { IfOk result (λ wire.
        JoinsWire builder.old builder.new other first second first_own wire) }
{
    if second < first_own {
        return Ok(first);
    }
    let n = builder.take_own(1)?;
    give_choice(builder, n, other, second, first)?;
    Ok(n)
}

// Joins a variable that the first alternative left this wire.
fn join_one(
    builder: &mut Builder,
    variables: &mut Vec<u32>,
    changes: &mut Vec<Change>,
    other: u32,
    first_own: u32,
    variable: u32,
    wire: u32,
) -> Result<(), NoMemory>
    requires within { variable < length variables.old.items }
    ensures { OnOk result (JoinsOne builder.old builder.new variables.old.items variables.new.items
        changes.old.items changes.new.items other first_own variable wire) }
{
    let second = wire_at(variables, variable);
    let joined = joined_wire(builder, other, wire, second, first_own)?;
    set_wire(variables, changes, variable, joined)
}

/// Joins two alternatives: the table has the wires after the second, whose own wires begin with
/// `first_own`, and `left` those that the first left its variables. The wire `other` is on where the
/// second ticks.
pub fn join(
    builder: &mut Builder,
    variables: &mut Vec<u32>,
    changes: &mut Vec<Change>,
    other: u32,
    left: &BTreeMap<u32, u32>,
    first_own: u32,
) -> Result<(), NoMemory>
    requires within { FitVariables (length variables.old.items) left.now }
    ensures { (xs ys : List ℕ) (a : ℕ → ℕ)
        → FirstLeft xs ys a left.now variables.old.items first_own
        → OnOk result (Joined builder.old builder.new variables.old.items variables.new.items
        changes.old.items changes.new.items other a xs ys) }
{
    for (variable, wire) in left {
        join_one(
            builder, variables, changes, other, first_own, *variable, *wire,
        )?;
    }
    Ok(())
}
