//! The rows of stores, as lists of fields: an entity with the values of its attributes, and a value with its entity.
#![tactic(auto)]

mod entity_row;
mod fault;
mod field;
mod laws;
mod pair;
mod read;
mod write;

pub use entity_row::{read_row, row_width, write_row};
pub use fault::RowFault;
pub use field::{Field, field_width};
pub use laws::{laws_of_rows, rows_of_rows};
pub use pair::{pair_row, pair_width, read_pair};
pub use read::read_field;
pub use st_keys::{EntityId, Kind, Value};
pub use st_lattice::Schema;
pub use st_values::Values;
pub use write::write_field;
