//! Calls that change a database in pages: a new entity, a single value that is set, a value more or fewer in a set. They give
//! what the contract of bases says, of each state that the pages nearly stand for.
#![tactic(auto)]

mod fault;
mod holder;
mod make;
mod members;
mod replacing;
mod set;
mod values;

pub use fault::told;
pub use holder::first_other;
pub use make::make_entity;
pub use members::{add_member, drop_member, take_member};
pub use set::set_value;
pub use values::put_row;
