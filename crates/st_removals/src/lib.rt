//! The steps of a deletion, in pages that stand for a state: a value that is taken out of a set, a row that no longer refers to
//! the entity, and the entity's own row.
#![tactic(auto)]

mod notes;
mod own;
mod references;
mod sets;

pub use own::remove;
pub use references::unrefer;
pub use sets::forget;
