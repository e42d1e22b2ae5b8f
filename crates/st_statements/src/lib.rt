//! Statements, terms and queries as text: how each is read from a form.
#![tactic(auto)]

mod basic;
mod cell;
mod fault;
mod names;
mod part;
mod query;
mod statement;
mod term;
mod word;

pub use basic::{end_of, misfit, next_at};
pub use fault::{Misread, Stop};
pub use query::query_at;
pub use statement::statement_at;
