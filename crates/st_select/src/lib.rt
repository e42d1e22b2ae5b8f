//! Which entities a query selects, in the written order, over any base.
#![tactic(auto)]

mod compare;
mod engine;
mod matching;
mod meaning;
mod ranking;
mod search;

pub use engine::{Engine, filtered, filtered_known};
pub use search::{Ask, OrderKey, Search, Test, prepare};
