//! What statements run over, and a database held as plain lists that meets it.
#![tactic(auto)]

mod base;
mod calls;
mod entities;
mod fault;
mod met;
mod plain;
mod rules;

pub use base::Base;
pub use fault::BaseFault;
pub use plain::Plain;
pub use rules::{by_number, needed_by, shared_with, spent};
pub use st_page::PageFault;
pub use st_state::Refusal;
