//! Pages of a stored database. So far only the faults of calls on pages.
#![tactic(auto)]

mod fault;

pub use fault::PageFault;
