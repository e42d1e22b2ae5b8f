//! Transactions that are run one after another over lists, as one client's.
#![tactic(auto)]

mod fault;
mod script;
mod step;
mod transaction;
mod turn;

pub use fault::SerialFault;
pub use script::{run_over, run_script};
pub(crate) use step::Stepped;
