ghost use Rattle.std.specs.Prelude.{◌≡◌, ◌≤◌, true, length};
ghost use Rattle.kernel_terms.specs.Limits.{most_traps};
ghost use Rattle.sj_names.specs.definitions.DeclaredSignals.{AreDeclared};
ghost use Rattle.sj_names.specs.definitions.FittingTrees.{fits_tree, entry_rules};
ghost use Rattle.sj_names.specs.definitions.NestedTraps.{traps_nest};
ghost use Rattle.sj_names.specs.definitions.SoundTables.{AreSoundTables};

use crate::entry::TableEntry;
use crate::failure::Failure;
use java_values::NoMemory;
use kernel_terms::Tables;
use sj_ast::{Raw, Tree};
use thiserror::Error;

/// A tree with numbers in place of names, in expressions with entries, and the tables of them. Each number names an entry
/// of the tables that may be used where it stands. The tables keep what is asked of names, limits and entries, there is a
/// domain, and traps nest at most 64 deep. Each signal of the tables is one that the tree declares, in order, with its
/// number. So each signal is declared once.
#[derive(Debug, Drop)]
pub struct Bound {
    pub tree: Tree<u32, Raw<TableEntry>>,
    pub tables: Tables,
    ghost fitting: { fits_tree tables (entry_rules tables) tree ≡ true },
    ghost sound: { AreSoundTables tables (length tree.domains) },
    ghost some: { 1 ≤ length tree.domains },
    ghost traps: { traps_nest most_traps tree ≡ true },
    ghost declared: { AreDeclared tables tree },
}

/// Why a tree isn't bound.
#[derive(Clone, Copy, Debug, PartialEq, Eq, Error)]
pub enum BindError {
    /// The first failure of its names, by place and then by kind.
    #[error("a failure of names")]
    Failed(Failure),
    /// An allocation was refused, or there are 2^32 names of one sort.
    #[error("no memory")]
    NoMemory,
}

impl From<NoMemory> for BindError {
    ghost use Rattle.sj_names.specs.declared.binding.BindError.TheVariants as error;

    ghost from_gives = { λ _ e. e ≡ error.NoMemory };

    fn from(_error: NoMemory) -> BindError {
        BindError::NoMemory
    }
}
