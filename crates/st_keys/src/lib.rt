//! The keys of values: the bytes by which a value is stored and ordered.
#![tactic(auto)]

mod decode;
mod encode;
mod fault;
mod laws;
mod width;

pub use decode::decode_key;
pub use encode::encode_key;
pub use fault::{KeyFault, ValueFault};
pub use laws::{laws_of_keys, rows_of_keys};
pub use st_values::{EntityId, Kind, Text, Value};
pub use width::key_width;
