//! The entities of a type with the values that stand in their rows.
#![tactic(auto)]

mod listing;

pub use listing::list_known;
