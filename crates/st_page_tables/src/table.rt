//! The tables, by what is asked of their cases.

use crate::keys::{key_answer, pair_answer};
use crate::pages::page_answer;
use crate::rows::row_answer;
use st_cases::{Asks, Case};
use std::alloc::{AllocError, Global};

/// A table.
#[derive(Clone, Copy)]
pub enum Table {
    /// Pages, and what is wanted of them.
    Pages,
    /// Rows of the entities of a schema.
    Rows,
    /// Rows of a value and an entity.
    Pairs,
    /// Keys of values.
    Keys,
}

/// All tables.
pub const TABLES: [Table; 4] = [Table::Pages, Table::Rows, Table::Pairs, Table::Keys];

impl Table {
    /// The name of its file.
    pub fn file(self) -> &'static str {
        match self {
            Table::Pages => "pages.txt",
            Table::Rows => "rows.txt",
            Table::Pairs => "pairs.txt",
            Table::Keys => "keys.txt",
        }
    }
}

impl Asks for Table {
    fn answer(&self, alloc: Global, case: &Case) -> Result<String, AllocError> {
        let front = str::from_utf8(&case.front).unwrap_or("");
        match *self {
            Table::Pages => page_answer(alloc, front, case.text()),
            Table::Rows => row_answer(alloc, front, case.text()),
            Table::Pairs => pair_answer(alloc, case.text()),
            Table::Keys => key_answer(alloc, case.text()),
        }
    }
}
