//! A database in pages as a base that selects entities: each call of a base over pages that stand for a state.
#![tactic(auto)]

mod answer;
mod base;
mod engine;
mod form;
mod paged;

pub use form::Form;
pub use paged::Paged;
