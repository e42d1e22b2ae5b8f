//! What is at hand of an entity: values of its attributes that were read with it.
#![tactic(auto)]

mod known;

pub use known::{Known, KnownValue, known_value};
