//! Texts, and copies that equal what they copy.
//!
//! `Letters` is a text that contracts see as its list of bytes, which is always UTF-8. `Duplicate`
//! is the trait of the types whose copies are equal to what they copy.
#![tactic(auto)]

mod duplicate;
mod letters;

pub use duplicate::Duplicate;
pub use letters::Letters;
