//! The resuming copy of a loop, from that of its body.

ghost use Rattle.std.specs.Prelude.{◌≡◌, ◌+◌, ◌<◌, ◌≤◌, ◌^◌, true, IfOk, length};
ghost use Rattle.kernel_terms.specs.Statements as statements;
ghost use Rattle.kernel_terms.specs.Statements.{statement};
ghost use Rattle.kernel_rules.specs.definitions.Registers.{registers};
ghost use Rattle.surf_graph.specs.declared.builder.Builder.{Builder};
ghost use Rattle.surf_graph.specs.declared.copy_builder.CopyBuilder.{CopyBuilder as Copying};
ghost use Rattle.surf_graph.specs.StartsBuilt.{is_built};
ghost use Rattle.depth_graph.specs.ResumesBuilt.{Resumes, StartsIf, Takes, with_builder};

use java_values::NoMemory;
use kernel_terms::{Tables, Term};
use std::alloc::Global;
use surf_graph::{CopyBuilder, Given, Made, give_greater, give_is_status, start};

const ENDED: u32 = 0;

/// Builds the starting copy of a statement, or nothing where it can't be reached, and answers the
/// wire of its status.
pub fn start_if(
    b: &mut CopyBuilder,
    alloc: Global,
    tables: &Tables,
    term: &Term,
    given: Given,
    may: bool,
) -> Result<u32, NoMemory>
    requires built { is_built (length b.old.wires.variables.items) (length b.old.emits.items)
        (statement term.now) ≡ true }
    requires room { given.register + registers tables.now (statement term.now) ≤
        length b.old.sets.items }
    requires fits { given.register + registers tables.now (statement term.now) < 2 ^ 32 }
    ensures { IfOk result (λ status.
        StartsIf tables.now b.old b.new given (statement term.now) may status) }
{
    if !may {
        return Ok(0);
    }
    let made = start(b, alloc, tables, term, given)?;
    Ok(made.status)
}

/// Builds what is behind the resuming copy of a loop's body, which was built behind three wires of
/// the loop's own: the starting copy of the body, where it may end, and the loop's status.
pub fn close_loop(
    b: &mut CopyBuilder,
    alloc: Global,
    tables: &Tables,
    body: &Term,
    given: Given,
    own: u32,
    made: Made,
) -> Result<Made, NoMemory>
    requires own { own + 2 < 2 ^ 32 }
    requires built { is_built (length b.old.wires.variables.items) (length b.old.emits.items)
        (statement body.now) ≡ true }
    requires room { given.register + registers tables.now (statement body.now) ≤
        length b.old.sets.items }
    requires fits { given.register + registers tables.now (statement body.now) < 2 ^ 32 }
    ensures { (old : Copying) (taken : Builder) → Takes old.builder taken 3 own
        → Resumes tables.now (with_builder old taken) b.old given (statement body.now) made
        → IfOk result (λ all.
        Resumes tables.now old b.new given (statements.Loop (statement body.now)) all) }
{
    give_is_status(&mut b.builder, own + 2, made.status, ENDED)?;
    let turn = Given {
        go: own + 2,
        hold: 0,
        keep: given.keep,
        register: given.register,
    };
    let status = start_if(b, alloc, tables, body, turn, made.ends)?;
    give_greater(&mut b.builder, own, made.status, status)?;
    Ok(Made {
        status: own,
        live: made.live,
        ends: false,
        register: made.register,
    })
}
