//! Statements that find, make and fill entities, over any base.
#![tactic(auto)]

mod ensuring;
mod filling;
mod finding;
mod given;
mod holders;
mod making;
mod refused;

pub use ensuring::ensure;
pub use finding::find;
pub use making::make;
