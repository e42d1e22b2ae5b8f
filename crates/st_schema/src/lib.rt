//! Schemas as text: how a schema is read from forms, checked and printed.
//!
//! `read` goes from forms by the written schema (`written`) and its checks (`check`) to a schema by number (`resolve`);
//! `print` goes back to a text.
#![tactic(auto)]

mod check;
mod fault;
mod laws;
mod print;
mod read;
mod resolve;
mod written;

pub use fault::{Counted, SchemaFault};
pub use laws::{laws_of_canonical_texts, laws_of_schemas};
pub use print::print_schema;
pub use read::read_schema;
pub use st_lattice::Schema;
