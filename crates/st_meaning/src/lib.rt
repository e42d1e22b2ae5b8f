//! What statements mean: definitions that the contracts of the crates above cite, and transactions
//! that were worked out by hand, over which they are computed.
#![tactic(auto)]

mod footprints;
mod laws;
mod meaning;
mod rows;
mod scripts;

pub use footprints::{rows_of_footprints, rows_of_serials};
pub use laws::{laws_of_orders, laws_of_refusals, laws_of_runs, laws_of_states};
pub use meaning::Meaning;
pub use rows::worked_rows;
pub use scripts::{
    rows_of_aborts, rows_of_diamonds, rows_of_ensures, rows_of_finds, rows_of_kinds, rows_of_names,
    rows_of_nulls, rows_of_orders, rows_of_references, rows_of_sets, rows_of_texts,
    rows_of_uniques, rows_of_variables,
};
