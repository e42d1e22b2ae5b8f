//! Indexes and inverses: the values of attributes with the entities that have them, as stores that are kept in step.
#![tactic(auto)]

mod noting;
mod pair;
mod reading;
mod turned;

pub use noting::note;
pub use pair::is_of_kind;
pub use reading::{fits, lookup};
