//! What is looked up in pages that stand for a state: whether an entity is live, its values, the members of its sets, the
//! entities of a type, and the entities that have a value.
#![tactic(auto)]

mod extent;
mod having;
mod holders;
mod sets;
mod walks;

pub use extent::{
    cell_index, cells_at, cells_in, extent_of, is_cell, is_live, list, serial_key, value_of,
};
pub use having::{found_holders, turned};
pub use sets::members;
pub use walks::{MOST_BYTES, Visit, walk};
