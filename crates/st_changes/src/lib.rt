//! Statements that change one entity, over any base: `set`, `add-to-set`, `delete-from-set` and `delete-entity`.
#![tactic(auto)]

mod entity;
mod member;
mod rules;
mod single;
mod values;

pub use entity::delete;
pub use member::{add, take};
pub use single::set;
