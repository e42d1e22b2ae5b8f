//! A second small form of a base, and what runs over any base.
//!
//! It shows that the contract of `Base` fits bases that see what they hold bit by bit.
#![tactic(auto)]

mod callers;
mod late;

pub use callers::{made_with, value_if_live};
pub use late::Late;
