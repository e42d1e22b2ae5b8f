//! Deletions in pages that stand for a state: an entity goes with its values and with each reference to it.
#![tactic(auto)]

mod clearing;
mod delete;
mod needs;

pub use delete::delete_entity;
