//! The equations of the built forms.

pub mod builder;
pub mod built_forms;
pub mod circuit;
pub mod codes;
#[cfg(test)]
mod codes_tests;
pub mod sites;
