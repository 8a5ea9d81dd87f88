ghost use Rattle.std.specs.Prelude.{◌≡◌, ◌≤◌, true, length};
ghost use Rattle.kernel_terms.specs.Limits.{most_traps};
ghost use Rattle.sj_names.specs.definitions.DeclaredSignals.{AreDeclared};
ghost use Rattle.sj_names.specs.definitions.FittingTrees.{fits_tree};
ghost use Rattle.sj_names.specs.definitions.NestedTraps.{traps_nest};
ghost use Rattle.sj_names.specs.definitions.SoundTables.{AreSoundTables};
ghost use Rattle.java_types.specs.definitions.Combinations.{combinations_fit};
ghost use Rattle.java_types.specs.definitions.FittingKinds.{kind_rules};

use kernel_terms::{Expr, Tables};
use sj_ast::Tree;

/// A tree whose expressions have kinds, and what its numbers stand for. Each number names an entry of the tables that
/// may be used where it stands. Each expression has its kind by its operators and operands, that of what it is given to,
/// and allowed divisors, and compound assignments are written out. The tables, the domains, the traps and the declarations
/// keep what is asked of those of a bound tree, and the combinations of signals fit their kinds.
#[derive(Debug, Drop)]
pub struct Typed {
    pub tree: Tree<u32, Expr>,
    pub tables: Tables,
    ghost fitting: { fits_tree tables (kind_rules tables) tree ≡ true },
    ghost sound: { AreSoundTables tables (length tree.domains) },
    ghost some: { 1 ≤ length tree.domains },
    ghost traps: { traps_nest most_traps tree ≡ true },
    ghost declared: { AreDeclared tables tree },
    ghost combined: { combinations_fit tables ≡ true },
}
