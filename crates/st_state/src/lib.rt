//! What a database holds: its live entities, the values of their attributes, and the serials given
//! out; and why a statement is refused.
#![tactic(auto)]

mod laws;
mod refusal;
mod triple;

pub use laws::laws_of_converses;
pub use refusal::Refusal;
pub use triple::Triple;
