//! A plain array of pages in memory, as one attempt at a transaction sees and changes it.
#![tactic(auto)]

mod attempted;
mod calls;
mod images;
mod laws;
mod memory_pages;
mod slot;
mod table;
mod tally;

pub use laws::laws_of_memory_pages;
pub use memory_pages::MemoryPages;
