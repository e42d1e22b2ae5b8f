//! Transactions that run over a database in pages: what a statement asks of them.
#![tactic(auto)]

mod stepping;

pub use stepping::step;
