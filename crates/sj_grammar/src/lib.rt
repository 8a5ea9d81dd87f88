//! Sentences of the language, and what each token may be in them.
#![tactic(auto)]

mod laws;
mod role;
mod rows;

pub use laws::{
    limits_are_counted, prefixes_are_what_can_be_read, sentences_are_what_is_read_whole,
    sentences_have_one_tree, sources_have_one_tree, walks_tell_the_first_bad_token,
};
pub use role::{
    Join, Lead, Start, TestLead, assign_of, combine_of, direction_of, infix_of, is_edge,
    join_level, join_of, kind_of, lead_of, level_of, same, sign_of, start_of, test_lead_of,
};
pub use rows::{small_expressions, small_programs, small_trees, wrong_trees};
