//! The pages of a new database: its schema, its roots, and the first pages of its stores.
#![tactic(auto)]

mod chain;
mod database;
mod laws;
mod page;
mod roots;

pub use database::{new_database, write_roots};
pub use laws::laws_of_new_databases;
