//! What a store is: rows in pages, as one ordered list, whatever the form in which pages hold them.
#![tactic(auto)]

mod cursor;
mod store;

pub use cursor::Cursor;
pub use st_pages::Place;
pub use store::Store;
