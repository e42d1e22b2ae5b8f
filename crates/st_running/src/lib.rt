//! Running transactions, over any base that selects entities.
#![tactic(auto)]

mod arms;
mod check;
mod laws;
mod live;
mod named;
mod outcome;
mod run;
mod running;

pub use laws::laws_of_footprints;
pub(crate) use outcome::Outcome;
pub use running::Running;
pub use st_plain::BaseFault as StepFault;
pub use st_select::Engine;
