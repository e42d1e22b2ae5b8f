//! Pages, byte by byte, and the state that they stand for.
#![tactic(auto)]

mod example;

pub use example::example_stands;
