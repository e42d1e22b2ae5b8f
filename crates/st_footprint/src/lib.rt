//! The stores that a statement may look at or change, by number.
#![tactic(auto)]

mod deletes;
mod effects;
mod list;
mod notes;
mod order;
mod paths;
mod starts;
mod terms;
mod touched;

pub use list::Footprint;
pub use touched::footprint;
