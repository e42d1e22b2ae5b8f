//! What a print and a for-each answer, over any base.
#![tactic(auto)]

mod lines;
mod query;
mod tails;

pub use query::for_each;
pub use tails::print;
