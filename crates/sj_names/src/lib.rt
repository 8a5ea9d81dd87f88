//! Names and their scopes: what each name of a source's tree stands for.
#![tactic(auto)]

mod bind_tree;
mod binding;
mod declared;
mod domains;
mod ends;
mod entry;
mod expressions;
mod failure;
mod failures;
mod fit_rows;
mod least;
mod limits;
mod mention;
mod names;
mod numbering;
mod owners;
mod program;
mod rows;
mod sharing;
mod sound;
mod statements;
mod tables;
mod uses;

pub use bind_tree::bind;
pub use binding::{BindError, Bound};
pub use entry::TableEntry;
pub use failure::{Failure, FailureKind};
pub use fit_rows::{
    small_declarations, small_exits_and_signals, small_parts, small_tests_and_expressions,
    small_values_and_channels,
};
pub use mention::{Counts, Group, Meaning, Mention, NameSort, Role, Use};
pub use numbering::numbered_tree;
pub use program::TreeNames;
pub use rows::{small_interfaces, small_limits, small_name_failures, small_tables};
pub use sound::{
    bound_trees_are_sound, bound_trees_fit, fitting_names, numbered_trees_are_sound,
    sound_interface, sound_names, sound_tables,
};

#[cfg(test)]
mod tests;
