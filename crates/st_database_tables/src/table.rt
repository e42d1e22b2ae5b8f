//! The tables, by what is asked of their cases.

use crate::databases::{database_answer, page_answer};
use crate::memory::memory_answer;
use crate::roots::roots_answer;
use crate::serials::serial_answer;
use st_cases::{Asks, Case};
use std::alloc::{AllocError, Global};

/// A table.
#[derive(Clone, Copy)]
pub enum Table {
    /// The pages of a new database, edited, and what is read of them.
    Databases,
    /// Single pages of a new database, by their bytes.
    FirstPages,
    /// Calls on pages in memory.
    Memory,
    /// The pages of both chains of a database.
    Roots,
    /// The last serial of a store, set and read again.
    Serials,
}

/// All tables.
pub const TABLES: [Table; 5] = [
    Table::Databases,
    Table::FirstPages,
    Table::Memory,
    Table::Roots,
    Table::Serials,
];

impl Table {
    /// The name of its file.
    pub fn file(self) -> &'static str {
        match self {
            Table::Databases => "databases.txt",
            Table::FirstPages => "first_pages.txt",
            Table::Memory => "memory.txt",
            Table::Roots => "roots.txt",
            Table::Serials => "serials.txt",
        }
    }
}

impl Asks for Table {
    fn answer(&self, alloc: Global, case: &Case) -> Result<String, AllocError> {
        match *self {
            Table::Databases => database_answer(alloc, &case.front, case.text()),
            Table::FirstPages => page_answer(alloc, &case.front, case.text()),
            Table::Roots => roots_answer(alloc, &case.front, case.text()),
            Table::Serials => serial_answer(alloc, &case.front, case.text()),
            Table::Memory => {
                memory_answer(
                    alloc,
                    str::from_utf8(&case.front).unwrap_or(""),
                    case.text(),
                )
            }
        }
    }
}
