//! What a database's pages say of its schema and of the stores of it.
#![tactic(auto)]

mod gather;
mod laws;
mod places;
mod read;
mod root;
mod serial;
mod walk;

pub use laws::laws_of_catalogs;
pub use read::read_database;
pub use root::Root;
pub use serial::{last_serial, set_last_serial};
pub use st_pages::{Place, Places};
pub use st_schema_bytes::Schema;
