//! Cases as data: tables of texts, each of which is answered.
#![tactic(auto)]

mod case;
mod table;

pub use case::{Case, case_of};
pub use table::{Asks, answered};
