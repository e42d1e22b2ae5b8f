//! Which state the pages of a database stand for.
#![tactic(auto)]

mod laws;

pub use laws::laws_of_standing;
