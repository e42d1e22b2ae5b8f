//! Scripts as text: how transactions, scripts and whole inputs are read.
#![tactic(auto)]

mod apart;
mod fault;
mod input;
mod laws;
mod script;

pub use apart::split;
pub use fault::ScriptFault;
pub use input::{read_forms, read_query, read_script, read_transaction};
pub use laws::laws_of_inputs;
pub use st_statements::Misread;
