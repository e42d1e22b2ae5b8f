//! How many rows of stores a change of a state adds or changes, at least.
#![tactic(auto)]

mod laws;

pub use laws::{laws_of_deleted, laws_of_made, laws_of_members, laws_of_single_values};
