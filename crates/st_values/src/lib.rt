//! The values of an entity database: their kinds, their order, how they are printed, and lists of names.
#![tactic(auto)]

mod laws;
mod names;
mod order;
mod print;
mod value;

pub use laws::laws_of_orders;
pub use names::{all_differ, first_repeated, has};
pub use order::{compare, compare_entities, is_before, is_entity_before, is_same, is_same_entity};
pub use print::{print_value, push_value};
pub use sqlite_items::Items;
pub use st_text::{Duplicate, Letters};
pub use value::{Entities, EntityId, Kind, Lines, Text, Value, Values};
