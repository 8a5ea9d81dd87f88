// Laws on trees and weights. Their functions do nothing.

ghost use Rattle.std.specs.Prelude.{◌≡◌, ◌<◌, ℕ, true, is_some, length, map};
ghost use Rattle.std.specs.List.{list_all};
ghost use Rattle.kernel_terms.specs.declared.tables.Tables.{Tables};
ghost use Rattle.kernel_terms.specs.declared.system.System.{System};
ghost use Rattle.kernel_terms.specs.declared.term.Term.{Term};
ghost use Rattle.kernel_terms.specs.Systems.{tables_of, domains_of};
ghost use Rattle.kernel_terms.specs.TableEntries.{signal_at, is_interface_of};
ghost use Rattle.kernel_terms.specs.Statements.{Stmt, statement};
ghost use Rattle.kernel_terms.specs.MayEnd.{resumes};
ghost use Rattle.kernel_terms.specs.WellFormed.{Scope, fits_statement, has_parts};
ghost use Rattle.tick_tree.specs.definitions.Leaves.{own_leaves, places_of};
ghost use Rattle.tick_tree.specs.definitions.Shapes.{Shape, starting_shape, resuming_shape};
ghost use Rattle.tick_tree.specs.definitions.Trees.{leaves_in, copies_in, tree_of};
ghost use Rattle.tick_tree.specs.definitions.Precedence.{interface_count};
ghost use Rattle.tick_tree.specs.definitions.Weight.{weight_of_shape, weight_of_some, nowhere, starting_weight, resuming_weight};
ghost use Rattle.tick_tree.specs.definitions.Exits.{exits_fit};
ghost use Rattle.tick_tree.specs.definitions.Laws.{numbers_from, leaf_numbers, without_places, without_places_of_some};

/// A statement that keeps the rules of a system exits to depths below the limit alone.
pub fn program_exits_fit()
    ensures { (t : Tables) (scope : Scope) (p : Stmt) → fits_statement t scope p ≡ true →
        exits_fit p ≡ true }
{}

/// So do the statements of the domains of a system.
pub fn system_exits_fit()
    ensures { (s : System) → list_all exits_fit (map statement (domains_of s)) ≡ true }
{}

/// There is a resuming tree exactly where a statement does something in a later tick.
pub fn resuming_trees_where_something_resumes()
    ensures { (at : ℕ → ℕ) (n : ℕ) (p : Stmt) → is_some (resuming_shape at n p) ≡ resumes p }
{}

/// A tree without its places doesn't depend on them, nor on the number of its first leaf.
pub fn places_change_no_tree()
    ensures starting { (at : ℕ → ℕ) (n : ℕ) (p : Stmt) →
        without_places (starting_shape at n p) ≡ starting_shape nowhere 0 p }
    ensures resuming { (at : ℕ → ℕ) (n : ℕ) (p : Stmt) →
        without_places_of_some (resuming_shape at n p) ≡ resuming_shape nowhere 0 p }
{}

/// Weights don't depend on places.
pub fn weights_are_those_without_places()
    ensures starting { (at : ℕ → ℕ) (n : ℕ) (p : Stmt) →
        weight_of_shape (starting_shape at n p) ≡ starting_weight p }
    ensures resuming { (at : ℕ → ℕ) (n : ℕ) (p : Stmt) →
        weight_of_some (resuming_shape at n p) ≡ resuming_weight p }
{}

/// Nor do the numbers of leaves and of new copies in a starting tree.
pub fn counts_are_those_without_places()
    ensures leaves { (at : ℕ → ℕ) (n : ℕ) (p : Stmt) →
        leaves_in (starting_shape at n p) ≡ leaves_in (starting_shape nowhere 0 p) }
    ensures copies { (at : ℕ → ℕ) (n : ℕ) (p : Stmt) →
        copies_in (starting_shape at n p) ≡ copies_in (starting_shape nowhere 0 p) }
{}

/// The leaves of a tree have the numbers from 0 on, from the left.
pub fn leaves_are_numbered_from_the_left()
    ensures { (interface : ℕ) (p : Shape) →
        leaf_numbers (tree_of interface p) ≡ numbers_from 0 (leaves_in p) }
{}

/// Each statement of a term that has a leaf of its own has a place for it.
pub fn leaves_have_places()
    ensures { (t : Term) → has_parts t ≡ true → length (places_of t) ≡ own_leaves (statement t) }
{}

/// No interface signal of a system has the number of a copy of a local signal.
pub fn interface_signals_come_before_copies()
    ensures { (s : System) (d k : ℕ) → is_interface_of d (signal_at (tables_of s) k) ≡ true →
        k < interface_count (tables_of s) }
{}
