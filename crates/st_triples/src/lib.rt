//! A state's triples, by attribute and in order, with a mark to which they go back.
//!
//! `Triples` finds the values of an attribute of an entity by searches that halve what is left.
#![tactic(auto)]

mod cells;
mod column;
mod columns;
mod order;
mod search;
mod triples;
mod whole;

pub use triples::Triples;
