ghost use Rattle.std.specs.Prelude.{◌≡◌, ◌≤◌, true, length};
ghost use Rattle.kernel_terms.specs.Limits.{most_traps};
ghost use Rattle.sj_names.specs.definitions.DeclaredSignals.{AreDeclared};
ghost use Rattle.sj_names.specs.definitions.FittingTrees.{fits_tree};
ghost use Rattle.sj_names.specs.definitions.NestedTraps.{traps_nest};
ghost use Rattle.sj_names.specs.definitions.SoundTables.{AreSoundTables};
ghost use Rattle.java_types.specs.definitions.Checks.{fine};
ghost use Rattle.java_types.specs.definitions.TypedTrees.{checked_tree};
ghost use Rattle.java_types.specs.definitions.FittingKinds.{kind_rules};
ghost use Rattle.java_types.specs.definitions.Combinations.{combinations_fit};

use crate::trees::Typed;
use kernel_terms::{Expr, Tables};
use sj_ast::Tree;
use sj_names::Bound;

// The expressions of a bound tree with its kinds keep the rules on kinds. Its tables, domains, traps and declarations keep
// what those of the bound tree do, and combinations fit.
pub fn kept_facts(bound: &Bound, tree: &Tree<u32, Expr>, tables: &Tables)
    requires tree { checked_tree bound.now.tables bound.now.tree ≡ fine tree.now }
    requires tables { tables.now ≡ bound.now.tables }
    ensures fitting { fits_tree tables.now (kind_rules tables.now) tree.now ≡ true }
    ensures sound { AreSoundTables tables.now (length tree.now.domains) }
    ensures some { 1 ≤ length tree.now.domains }
    ensures traps { traps_nest most_traps tree.now ≡ true }
    ensures declared { AreDeclared tables.now tree.now }
    ensures combined { combinations_fit tables.now ≡ true }
{}

/// Expressions of a tree with kinds have their kinds by operators and operands, those of what they are given to, and
/// allowed divisors.
pub fn fitting_kinds(typed: &Typed)
    ensures { fits_tree typed.now.tables (kind_rules typed.now.tables) typed.now.tree ≡ true }
{}

/// The combinations of the signals of a tree with kinds fit their kinds: a pure signal has the default one, and a
/// `boolean` one `&`, `|` or `^`.
pub fn fitting_combinations(typed: &Typed)
    ensures { combinations_fit typed.now.tables ≡ true }
{}

/// Each signal of the tables is one that the tree with kinds declares, in order, with its number, its kind and its
/// combination.
pub fn declared_signals(typed: &Typed)
    ensures { AreDeclared typed.now.tables typed.now.tree }
{}
