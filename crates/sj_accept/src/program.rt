ghost use Rattle.std.specs.Prelude.{◌≡◌, IfOk, MatchOption, None};
ghost use Rattle.sj_accept.specs.Lowered.{IsSystemOf};
ghost use Rattle.sj_accept.specs.definitions.Programs.{lowered};

use crate::domains::domain_terms;
use crate::tables::tables_are_built;
use java_types::Typed;
use java_values::NoMemory;
use kernel_terms::System;
use sqlite_items::Items;
use std::alloc::Global;

/// The system of a tree with kinds, where its tables and its forms are built.
pub fn system_of(alloc: Global, typed: Typed) -> Result<Option<System>, NoMemory>
    ensures { IfOk result (λ o. MatchOption o (lowered typed.tables typed.tree ≡
        None) (IsSystemOf typed.tables typed.tree)) }
{
    if !tables_are_built(&typed.tables) {
        return Ok(None);
    }
    match domain_terms(alloc, typed.tree.domains.as_slice()) {
        Err(error) => Err(error),
        Ok(None) => Ok(None),
        Ok(Some(terms)) => Ok(Some(System::new(typed.tables, Items::from_vec(terms)))),
    }
}
