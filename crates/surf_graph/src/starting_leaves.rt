//! The starting copies of statements without parts.

ghost use Rattle.std.specs.Prelude.{◌≡◌, ◌+◌, ◌<◌, ◌≤◌, ◌^◌, ◌∷◌, [], IfOk, length};
ghost use Rattle.kernel_terms.specs.declared.tables.Tables.{Tables as AllTables};
ghost use Rattle.kernel_terms.specs.Expressions as terms;
ghost use Rattle.kernel_terms.specs.Statements as statements;
ghost use Rattle.surf_graph.specs.definitions.Copies.{emitted_value};
ghost use Rattle.surf_graph.specs.definitions.Formulas as formula;
ghost use Rattle.surf_graph.specs.Building.{wires_in};
ghost use Rattle.surf_graph.specs.StartsBuilt.{Owns, Starts};

use crate::builder::Builder;
use crate::copy_builder::{CopyBuilder, Given, Made, add_guarded, change_wire};
use crate::formulas::{give_and, give_choice, give_code, give_emitted, give_value};
use crate::wire_tables::{WireTables, wire_at};
use java_values::NoMemory;
use kernel_terms::{Expr, Tables};

const ENDED: u32 = 0;

const PAUSED: u32 = 1;

// The next wire gets the status of this code where `go` is on.
fn own_code(builder: &mut Builder, go: u32, code: u32) -> Result<u32, NoMemory>
    ensures { IfOk result (λ n. Owns builder.old builder.new 1
        (record { wire = builder.old.next; formula = formula.Status go code } ∷ []) n) }
{
    let n = builder.take_own(1)?;
    give_code(builder, n, go, code)?;
    Ok(n)
}

// The next wires get the status of a pause and whether its register is set.
fn own_pause(builder: &mut Builder, go: u32, keep: u32) -> Result<u32, NoMemory>
    ensures { IfOk result (λ n. Owns builder.old builder.new 2
        (record { wire = builder.old.next; formula = formula.Status go 1 } ∷
        record { wire = builder.old.next + 1; formula = formula.And go keep } ∷ []) n) }
{
    let n = builder.take_own(2)?;
    give_code(builder, n, go, PAUSED)?;
    give_and(builder, n + 1, go, keep)?;
    Ok(n)
}

// The next wires get the status of an emission and its value.
fn own_emission(
    builder: &mut Builder,
    tables: &WireTables,
    value: &Option<Expr>,
    go: u32,
) -> Result<u32, NoMemory>
    ensures { IfOk result (λ n. Owns builder.old builder.new 2
        (record { wire = builder.old.next; formula = formula.Status go 0 } ∷
        record {
          wire = builder.old.next + 1;
          formula = emitted_value (statements.optional_expression value.now) (wires_in tables.now);
        } ∷ []) n) }
{
    let n = builder.take_own(2)?;
    give_code(builder, n, go, ENDED)?;
    give_emitted(builder, n + 1, tables, value)?;
    Ok(n)
}

// The next wires get the status of an assignment, its value, and what the variable has then.
fn own_assignment(
    builder: &mut Builder,
    tables: &WireTables,
    value: &Expr,
    go: u32,
    before: u32,
) -> Result<u32, NoMemory>
    ensures { IfOk result (λ n. Owns builder.old builder.new 3
        (record { wire = builder.old.next; formula = formula.Status go 0 } ∷
        record {
          wire = builder.old.next + 1;
          formula = formula.Value (terms.expression value.now) (wires_in tables.now);
        } ∷
        record {
          wire = builder.old.next + 2;
          formula = formula.Choose go (builder.old.next + 1) before;
        } ∷ []) n) }
{
    let n = builder.take_own(3)?;
    give_code(builder, n, go, ENDED)?;
    give_value(builder, n + 1, tables, value)?;
    give_choice(builder, n + 2, go, n + 1, before)?;
    Ok(n)
}

// The next wires get the status of a send, whether its registers are set, and its value.
fn own_send(
    builder: &mut Builder,
    tables: &WireTables,
    value: &Expr,
    go: u32,
    keep: u32,
) -> Result<u32, NoMemory>
    ensures { IfOk result (λ n. Owns builder.old builder.new 3
        (record { wire = builder.old.next; formula = formula.Status go 1 } ∷
        record { wire = builder.old.next + 1; formula = formula.And go keep } ∷
        record {
          wire = builder.old.next + 2;
          formula = formula.Value (terms.expression value.now) (wires_in tables.now);
        } ∷ []) n) }
{
    let n = builder.take_own(3)?;
    give_code(builder, n, go, PAUSED)?;
    give_and(builder, n + 1, go, keep)?;
    give_value(builder, n + 2, tables, value)?;
    Ok(n)
}

/// The starting copy of `Nothing`.
pub fn start_nothing(b: &mut CopyBuilder, given: Given) -> Result<Made, NoMemory>
    ensures { IfOk result (λ made. (tables : AllTables) →
        Starts tables b.old b.new given statements.Nothing made) }
{
    let status = own_code(&mut b.builder, given.go, ENDED)?;
    Ok(Made {
        status,
        live: 0,
        ends: true,
        register: given.register,
    })
}

/// The starting copy of a pause.
pub fn start_pause(b: &mut CopyBuilder, given: Given) -> Result<Made, NoMemory>
    requires room { given.register + 1 ≤ length b.old.sets.items }
    requires register { given.register + 1 < 2 ^ 32 }
    ensures { IfOk result (λ made. (tables : AllTables) →
        Starts tables b.old b.new given statements.Pause made) }
{
    let status = own_pause(&mut b.builder, given.go, given.keep)?;
    add_guarded(&mut b.sets, given.register, status + 1, status + 1)?;
    Ok(Made {
        status,
        live: 0,
        ends: false,
        register: given.register + 1,
    })
}

/// The starting copy of an emission.
pub fn start_emission(
    b: &mut CopyBuilder,
    given: Given,
    signal: u32,
    value: &Option<Expr>,
) -> Result<Made, NoMemory>
    requires signal { signal < length b.old.emits.items }
    ensures { IfOk result (λ made. (tables : AllTables) → Starts tables b.old b.new given
        (statements.Emit signal (statements.optional_expression value.now)) made) }
{
    let status = own_emission(&mut b.builder, &b.wires, value, given.go)?;
    add_guarded(&mut b.emits, signal, given.go, status + 1)?;
    Ok(Made {
        status,
        live: 0,
        ends: true,
        register: given.register,
    })
}

/// The starting copy of an assignment.
pub fn start_assignment(
    b: &mut CopyBuilder,
    given: Given,
    variable: u32,
    value: &Expr,
) -> Result<Made, NoMemory>
    requires variable { variable < length b.old.wires.variables.items }
    ensures { IfOk result (λ made. (tables : AllTables) → Starts tables b.old b.new given
        (statements.Assign variable (terms.expression value.now)) made) }
{
    let before = wire_at(&b.wires.variables, variable);
    let status = own_assignment(&mut b.builder, &b.wires, value, given.go, before)?;
    change_wire(b, variable, before, status + 2)?;
    Ok(Made {
        status,
        live: 0,
        ends: true,
        register: given.register,
    })
}

/// The starting copy of a send.
pub fn start_send(
    b: &mut CopyBuilder,
    given: Given,
    channel: u32,
    value: &Expr,
) -> Result<Made, NoMemory>
    requires room { given.register + 3 ≤ length b.old.sets.items }
    requires register { given.register + 3 < 2 ^ 32 }
    ensures { IfOk result (λ made. (tables : AllTables) → Starts tables b.old b.new given
        (statements.Send channel (terms.expression value.now)) made) }
{
    let status = own_send(&mut b.builder, &b.wires, value, given.go, given.keep)?;
    let on = status + 1;
    add_guarded(&mut b.sets, given.register, on, on)?;
    add_guarded(&mut b.sets, given.register + 2, on, status + 2)?;
    Ok(Made {
        status,
        live: 0,
        ends: false,
        register: given.register + 3,
    })
}

/// The starting copy of a receive.
pub fn start_receive(b: &mut CopyBuilder, given: Given, channel: u32) -> Result<Made, NoMemory>
    requires room { given.register + 2 ≤ length b.old.sets.items }
    requires register { given.register + 2 < 2 ^ 32 }
    ensures { IfOk result (λ made. (tables : AllTables) →
        Starts tables b.old b.new given (statements.Receive channel) made) }
{
    let status = own_pause(&mut b.builder, given.go, given.keep)?;
    let set = status + 1;
    add_guarded(&mut b.sets, given.register, set, set)?;
    Ok(Made {
        status,
        live: 0,
        ends: false,
        register: given.register + 2,
    })
}
