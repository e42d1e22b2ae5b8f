//! A list that logs how it was changed since its mark, so that it can go back there without memory.
//!
//! `UndoList` is that list. `Sieve` is a test as a value, by which it takes items out.
#![tactic(auto)]

mod change;
mod list;
mod sieve;
mod sift;

pub use list::UndoList;
pub use sieve::Sieve;
