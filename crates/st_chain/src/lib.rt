//! A store of rows as a chain of pages, each of which names the one behind it.
#![tactic(auto)]

mod above;
mod calls;
mod chain;
mod insert;
mod remove;
mod walk;

pub use chain::Chain;
