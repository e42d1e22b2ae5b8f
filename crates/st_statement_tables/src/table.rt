//! The tables, by what is asked of their cases.

use crate::answers::{schema_of, stores, whether_they_meet};
use st_cases::{Asks, Case};
use st_reader::read_transaction;
use std::alloc::{AllocError, Global};

/// A table. The front of its cases is a schema, and a case is a transaction.
#[derive(Clone, Copy)]
pub enum Table {
    /// The stores that the last statement may touch.
    Footprints,
    /// Whether the last two statements may touch a common store.
    Meetings,
}

/// All tables.
pub const TABLES: [Table; 2] = [Table::Footprints, Table::Meetings];

impl Table {
    /// The name of its file.
    pub fn file(self) -> &'static str {
        match self {
            Table::Footprints => "footprints.txt",
            Table::Meetings => "meetings.txt",
        }
    }
}

impl Asks for Table {
    fn answer(&self, alloc: Global, case: &Case) -> Result<String, AllocError> {
        let Ok(schema) = schema_of(alloc, &case.front) else {
            return String::from_str(alloc, " no schema");
        };
        let Ok(transaction) = read_transaction(alloc, &case.text) else {
            return String::from_str(alloc, " no transaction");
        };
        match *self {
            Table::Footprints => stores(alloc, &schema, transaction.statements.as_slice()),
            Table::Meetings => whether_they_meet(alloc, &schema, transaction.statements.as_slice()),
        }
    }
}
