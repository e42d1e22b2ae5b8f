//! Rows in a page: how one is read, looked for, put in, replaced and taken out, and how a page is split.
#![tactic(auto)]

mod change;
mod look;
mod split;

pub use change::{insert_row, remove_row, replace_row};
pub use look::{row_at, search};
pub use split::split_off;
