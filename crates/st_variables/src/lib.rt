//! The variables of a transaction: names bound to values, each name once.
#![tactic(auto)]

mod variables;

pub use variables::Variables;
