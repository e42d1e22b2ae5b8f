//! Schemas by number: types, how they descend from each other, their attributes and features, what is stored for them,
//! and what is found by name.
#![tactic(auto)]

mod attribute;
mod called;
mod copy;
mod descents;
mod feature;
mod laws;
mod lists;
mod positions;
mod schema;
mod stores;
mod table;

pub use attribute::{Attribute, Numbers};
pub use called::Called;
pub use feature::{Feature, Named};
pub use laws::{laws_of_descent, laws_of_stores};
pub use schema::Schema;
pub use stores::{StoreIds, StoreKind, store};
