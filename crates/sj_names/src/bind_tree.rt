ghost use Rattle.std.specs.Prelude.{◌≡◌, ◌≤◌, true, length, map, IfOk, IfErr};
ghost use Rattle.std.specs.List.{list_all};
ghost use Rattle.java_values.specs.Names.{is_name};
ghost use Rattle.kernel_terms.specs.Limits.{most_traps};
ghost use Rattle.sj_names.specs.definitions.Bindings.{IsBinding, IsWhyUnbound};
ghost use Rattle.sj_names.specs.definitions.NestedTraps.{traps_nest};
ghost use Rattle.sj_names.specs.definitions.SoundTables.{port_name};

use crate::binding::{BindError, Bound};
use crate::numbering::numbered_tree;
use crate::program::TreeNames;
use crate::sound::{fitting_names, numbered_trees_are_sound};
use crate::tables::tables_of_tree;
use sj_ast::{Name, Raw, Tree};
use std::alloc::Global;

/// The tree with numbers for its names, and its tables; or the first failure of its names.
pub fn bind(alloc: Global, tree: &Tree<Name, Raw<Name>>) -> Result<Bound, BindError>
    requires some { 1 ≤ length tree.now.domains }
    requires named { list_all is_name (map port_name tree.now.ports) ≡ true }
    requires traps { traps_nest most_traps tree.now ≡ true }
    ensures bound { IfOk result (IsBinding tree.now) }
    ensures why { IfErr result (IsWhyUnbound tree.now) }
{
    let names = TreeNames::read(alloc, tree)?;
    if let Some(failure) = names.first_failure(alloc)? {
        return Err(BindError::Failed(failure));
    }
    fitting_names(tree);
    numbered_trees_are_sound(tree);
    let tables = tables_of_tree(alloc, &names, tree)?;
    let tree = numbered_tree(alloc, tree)?;
    Ok(Bound { tree, tables })
}
