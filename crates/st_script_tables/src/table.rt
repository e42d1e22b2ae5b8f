//! The tables, by what their cases are read as.

use crate::readings;
use st_cases::{Asks, Case};
use std::alloc::{AllocError, Global};

/// A table, by what its cases are read as.
#[derive(Clone, Copy)]
pub enum Table {
    Scripts,
    Transactions,
    Queries,
    Programs,
}

/// All tables.
pub const TABLES: [Table; 4] = [
    Table::Scripts,
    Table::Transactions,
    Table::Queries,
    Table::Programs,
];

impl Table {
    /// The name of its file.
    pub fn file(self) -> &'static str {
        match self {
            Table::Scripts => "scripts.txt",
            Table::Transactions => "transactions.txt",
            Table::Queries => "queries.txt",
            Table::Programs => "programs.txt",
        }
    }
}

impl Asks for Table {
    fn answer(&self, alloc: Global, case: &Case) -> Result<String, AllocError> {
        let text = case.whole(alloc)?;
        match *self {
            Table::Scripts => readings::script(alloc, &text),
            Table::Transactions => readings::transaction(alloc, &text),
            Table::Queries => readings::query(alloc, &text),
            Table::Programs => readings::program(alloc, &text),
        }
    }
}
