//! The checks of a statement before anything is evaluated: the names, the kinds and the sets, in one pass in text order.
#![tactic(auto)]

mod cells;
mod kinds;
mod query;
mod scope;
mod statement;
mod term;

pub use query::query_refused;
pub use statement::text_refused;
