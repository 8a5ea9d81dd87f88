// What is promised of the names and tables of a tree whose names have no failure.

ghost use Rattle.std.specs.Prelude.{◌≡◌, ◌≤◌, [], true, length, map};
ghost use Rattle.std.specs.List.{list_all};
ghost use Rattle.java_values.specs.Names.{is_name};
ghost use Rattle.kernel_terms.specs.Limits.{most_traps};
ghost use Rattle.kernel_terms.specs.WellFormed.{has_names, is_within_limits, interface_comes_first, is_channel_entry, is_variable_entry};
ghost use Rattle.sj_names.specs.definitions.Mentions.{names_of_tree};
ghost use Rattle.sj_names.specs.definitions.Failures.{failures_of};
ghost use Rattle.sj_names.specs.definitions.DeclaredSignals.{AreDeclared};
ghost use Rattle.sj_names.specs.definitions.DeclaredTables.{tables_of_tree};
ghost use Rattle.sj_names.specs.definitions.SoundTables.{AreSoundTables, port_name, has_domain, are_sound};
ghost use Rattle.sj_names.specs.definitions.NestedTraps.{traps_nest};
ghost use Rattle.sj_names.specs.definitions.NumberedTrees.{numbered_tree};
ghost use Rattle.sj_names.specs.definitions.FittingTrees.{fits_tree, entry_rules};

use crate::binding::Bound;
use sj_ast::{Name, Raw, Tree};

/// The names of the domains stand for entries of the tables that they may use in their roles.
pub fn sound_names(tree: &Tree<Name, Raw<Name>>)
    requires sound { failures_of (names_of_tree tree.now) ≡ [] }
    ensures { are_sound (tables_of_tree tree.now) 0 (names_of_tree tree.now).domains ≡ true }
{}

/// The tables are within the limits. Each entry belongs to domains of the tree, a channel to two of them, and
/// interface signals come before local ones.
pub fn sound_tables(tree: &Tree<Name, Raw<Name>>)
    requires sound { failures_of (names_of_tree tree.now) ≡ [] }
    requires some { 1 ≤ length tree.now.domains }
    ensures limits { is_within_limits (tables_of_tree tree.now) (length tree.now.domains) ≡ true }
    ensures signals { list_all (has_domain (length tree.now.domains))
        (tables_of_tree tree.now).signals ≡ true }
    ensures order { interface_comes_first (tables_of_tree tree.now).signals ≡ true }
    ensures channels { list_all (is_channel_entry (length tree.now.domains))
        (tables_of_tree tree.now).channels ≡ true }
    ensures variables { list_all (is_variable_entry (length tree.now.domains))
        (tables_of_tree tree.now).variables ≡ true }
{}

/// The names of interface signals and of channels in the tables are names, and no two of them are equal.
pub fn sound_interface(tree: &Tree<Name, Raw<Name>>)
    requires sound { failures_of (names_of_tree tree.now) ≡ [] }
    requires named { list_all is_name (map port_name tree.now.ports) ≡ true }
    ensures { has_names (tables_of_tree tree.now) ≡ true }
{}

/// The numbers of the tree name entries of its tables that may be used where they stand.
pub fn fitting_names(tree: &Tree<Name, Raw<Name>>)
    requires sound { failures_of (names_of_tree tree.now) ≡ [] }
    ensures { fits_tree (tables_of_tree tree.now) (entry_rules (tables_of_tree tree.now))
        (numbered_tree tree.now) ≡ true }
{}

/// The tables suit the tree with numbers, which has as many domains as the tree, and whose traps nest as deep.
pub fn numbered_trees_are_sound(tree: &Tree<Name, Raw<Name>>)
    requires sound { failures_of (names_of_tree tree.now) ≡ [] }
    requires some { 1 ≤ length tree.now.domains }
    requires named { list_all is_name (map port_name tree.now.ports) ≡ true }
    requires traps { traps_nest most_traps tree.now ≡ true }
    ensures tables { AreSoundTables (tables_of_tree tree.now)
        (length (numbered_tree tree.now).domains) }
    ensures some { 1 ≤ length (numbered_tree tree.now).domains }
    ensures traps { traps_nest most_traps (numbered_tree tree.now) ≡ true }
    ensures declared { AreDeclared (tables_of_tree tree.now) (numbered_tree tree.now) }
{
    sound_tables(tree);
    sound_interface(tree);
}

/// The numbers of a bound tree name entries of its tables that may be used where they stand.
pub fn bound_trees_fit(bound: &Bound)
    ensures { fits_tree bound.now.tables (entry_rules bound.now.tables) bound.now.tree ≡ true }
{}

/// The tables of a bound tree keep what is asked of names, limits and entries. It has a domain, its traps nest at most
/// 64 deep, and it declares the signals of the tables, in order, each with its number.
pub fn bound_trees_are_sound(bound: &Bound)
    ensures tables { AreSoundTables bound.now.tables (length bound.now.tree.domains) }
    ensures some { 1 ≤ length bound.now.tree.domains }
    ensures traps { traps_nest most_traps bound.now.tree ≡ true }
    ensures declared { AreDeclared bound.now.tables bound.now.tree }
{}
