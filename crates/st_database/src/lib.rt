//! What stands in the pages of a whole database: its schema, and of each store the rows and the last serial; and calls on
//! one store of it, or on an attribute's index and inverse.
#![tactic(auto)]

mod calls;
mod extents;
mod laws;
mod order;
mod turned;

pub use calls::{find_row, insert_row, remove_row};
pub use extents::{insert_new, serial_of};
pub use laws::laws_of_places;
pub use order::laws_of_order;
pub use turned::{look_up, note_pair};
