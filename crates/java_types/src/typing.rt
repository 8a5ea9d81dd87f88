ghost use Rattle.std.specs.Prelude.{◌≡◌, MatchResult};
ghost use Rattle.java_types.specs.definitions.Checks.{fine, IsFirst};
ghost use Rattle.java_types.specs.definitions.TypedTrees.{checked_tree};
ghost use Rattle.java_types.specs.definitions.Typings.{IsTyping, IsWhyUntyped};

use crate::failure::TypeError;
use crate::laws::kept_facts;
use crate::ports::{copied_ports, first_port_failure};
use crate::statements::blocks;
use crate::table_copies::copied_tables;
use crate::trees::Typed;
use kernel_terms::{Expr, Tables};
use sj_ast::{Raw, Tree};
use sj_names::{Bound, TableEntry};
use std::alloc::Global;

#[tactic(auto, using(crate::proofs::CheckLemmas::checks))]
fn tree_with_kinds(
    alloc: Global,
    tables: &Tables,
    tree: &Tree<u32, Raw<TableEntry>>,
) -> Result<Tree<u32, Expr>, TypeError>
    ensures { MatchResult result (λ t. checked_tree tables.now tree.now ≡
        fine t) (IsFirst (checked_tree tables.now tree.now)) }
{
    let ports = tree.ports.as_slice();
    if let Some(failure) = first_port_failure(ports) {
        return Err(TypeError::Failed(failure));
    }
    let domains = blocks(alloc, tables, tree.domains.as_slice())?;
    let ports = copied_ports(alloc, ports)?;
    Ok(Tree { ports, domains })
}

/// The tree with the kinds of its expressions, and the same tables; or the first thing that is wrong with the kinds.
pub fn typed(alloc: Global, bound: &Bound) -> Result<Typed, TypeError>
    ensures { MatchResult result (IsTyping bound.now) (IsWhyUntyped bound.now) }
{
    let tree = tree_with_kinds(alloc, &bound.tables, &bound.tree)?;
    let tables = copied_tables(alloc, &bound.tables)?;
    kept_facts(bound, &tree, &tables);
    Ok(Typed { tree, tables })
}
