//! The resuming copies of statements without parts.

ghost use Rattle.std.specs.Prelude.{◌≡◌, ◌+◌, ◌<◌, ◌≤◌, ◌^◌, IfOk, ℕ, Option, length};
ghost use Rattle.kernel_terms.specs.declared.tables.Tables.{Tables as AllTables};
ghost use Rattle.kernel_terms.specs.Expressions.{Expression};
ghost use Rattle.kernel_terms.specs.Statements as statements;
ghost use Rattle.surf_graph.specs.declared.copy_builder.CopyBuilder.{CopyBuilder as Copying};
ghost use Rattle.surf_graph.specs.StartsBuilt.{Owns};
ghost use Rattle.depth_graph.specs.ResumesBuilt.{Resumes, pause_own, waiting_own};

use crate::formulas::{give_and_not, give_register};
use java_values::NoMemory;
use surf_graph::{
    Builder, CopyBuilder, Given, Made, add_guarded, give_and, give_code, give_greater,
};

const ENDED: u32 = 0;

const PAUSED: u32 = 1;

// The next wires get the equations of a pause.
fn own_pause(builder: &mut Builder, given: Given) -> Result<u32, NoMemory>
    ensures { IfOk result (λ n. Owns builder.old builder.new 4
        (pause_own given builder.old.next) n) }
{
    let n = builder.take_own(4)?;
    give_register(builder, n, given.register)?;
    give_and(builder, n + 1, given.go, n)?;
    give_code(builder, n + 2, n + 1, ENDED)?;
    give_and(builder, n + 3, given.hold, given.keep)?;
    Ok(n)
}

// The next wires get the equations of a send or a receive.
fn own_waiting(builder: &mut Builder, given: Given) -> Result<u32, NoMemory>
    requires register { given.register + 2 < 2 ^ 32 }
    ensures { IfOk result (λ n. Owns builder.old builder.new 10
        (waiting_own given builder.old.next) n) }
{
    let n = builder.take_own(10)?;
    give_register(builder, n, given.register)?;
    give_register(builder, n + 1, given.register + 1)?;
    give_register(builder, n + 2, given.register + 2)?;
    give_and(builder, n + 3, given.go, n)?;
    give_and_not(builder, n + 4, n + 3, n + 1)?;
    give_code(builder, n + 5, n + 3, ENDED)?;
    give_code(builder, n + 6, n + 4, PAUSED)?;
    give_greater(builder, n + 7, n + 5, n + 6)?;
    give_and(builder, n + 8, given.hold, given.keep)?;
    give_and(builder, n + 9, n + 4, given.keep)?;
    Ok(n)
}

/// A statement that doesn't resume has no resuming copy.
pub fn resume_nothing(given: Given) -> Made
    ensures nothing { (tables : AllTables) (b : Copying) →
        Resumes tables b b given statements.Nothing result }
    ensures emission { (tables : AllTables) (b : Copying) (signal : ℕ) (value : Option Expression)
        → Resumes tables b b given (statements.Emit signal value) result }
    ensures assignment { (tables : AllTables) (b : Copying) (variable : ℕ) (value : Expression)
        → Resumes tables b b given (statements.Assign variable value) result }
{
    Made {
        status: 0,
        live: 0,
        ends: false,
        register: given.register,
    }
}

/// The resuming copy of a pause.
pub fn resume_pause(b: &mut CopyBuilder, given: Given) -> Result<Made, NoMemory>
    requires room { given.register + 1 ≤ length b.old.sets.items }
    requires register { given.register + 1 < 2 ^ 32 }
    ensures { IfOk result (λ made. (tables : AllTables) →
        Resumes tables b.old b.new given statements.Pause made) }
{
    let n = own_pause(&mut b.builder, given)?;
    add_guarded(&mut b.sets, given.register, n + 3, n)?;
    Ok(Made {
        status: n + 2,
        live: n,
        ends: true,
        register: given.register + 1,
    })
}

/// The resuming copy of a send.
pub fn resume_send(b: &mut CopyBuilder, given: Given) -> Result<Made, NoMemory>
    requires room { given.register + 3 ≤ length b.old.sets.items }
    requires register { given.register + 3 < 2 ^ 32 }
    ensures { IfOk result (λ made. (tables : AllTables) (channel : ℕ) (value : Expression)
        → Resumes tables b.old b.new given (statements.Send channel value) made) }
{
    let n = own_waiting(&mut b.builder, given)?;
    let r = given.register;
    add_guarded(&mut b.sets, r, n + 8, n)?;
    add_guarded(&mut b.sets, r, n + 9, n + 9)?;
    add_guarded(&mut b.sets, r + 1, n + 8, n + 1)?;
    add_guarded(&mut b.sets, r + 2, n + 8, n + 2)?;
    add_guarded(&mut b.sets, r + 2, n + 9, n + 2)?;
    Ok(Made {
        status: n + 7,
        live: n,
        ends: true,
        register: r + 3,
    })
}

/// The resuming copy of a receive.
pub fn resume_receive(b: &mut CopyBuilder, given: Given) -> Result<Made, NoMemory>
    requires room { given.register + 2 ≤ length b.old.sets.items }
    requires register { given.register + 2 < 2 ^ 32 }
    ensures { IfOk result (λ made. (tables : AllTables) (channel : ℕ)
        → Resumes tables b.old b.new given (statements.Receive channel) made) }
{
    let n = own_waiting(&mut b.builder, given)?;
    let r = given.register;
    add_guarded(&mut b.sets, r, n + 8, n)?;
    add_guarded(&mut b.sets, r, n + 9, n + 9)?;
    add_guarded(&mut b.sets, r + 1, n + 8, n + 1)?;
    Ok(Made {
        status: n + 7,
        live: n,
        ends: true,
        register: r + 2,
    })
}
