//! Schemas as bytes: how a schema is stored, and how it is read again.
#![tactic(auto)]

mod decode;
mod encode;
mod fault;
mod laws;

pub use decode::decode_schema;
pub use encode::encode_schema;
pub use fault::StoredFault;
pub use laws::laws_of_schema_bytes;
pub use st_schema::Schema;
