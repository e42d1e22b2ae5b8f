//! The form of stores.

use st_chain::Chain;

/// The form of all stores of a database in pages.
pub type Form = Chain;
