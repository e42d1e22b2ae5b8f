//! The tables, by what their cases are asked.

use crate::schemas::Question;
use crate::{forms, schemas, tries, values};
use st_cases::{Asks, Case};
use std::alloc::{AllocError, Global};

/// A table, by what its cases are asked.
#[derive(Clone, Copy)]
pub enum Table {
    Values,
    Forms,
    Schemas,
    Canonical,
    Overviews,
    Features,
    Attributes,
    Texts,
    Faults,
    Programs,
    Statements,
    Queries,
    Refusals,
    Transactions,
    Failures,
    Words,
}

/// All tables, in the order of the layers.
pub const TABLES: [Table; 16] = [
    Table::Values,
    Table::Forms,
    Table::Schemas,
    Table::Canonical,
    Table::Overviews,
    Table::Features,
    Table::Attributes,
    Table::Texts,
    Table::Faults,
    Table::Programs,
    Table::Statements,
    Table::Queries,
    Table::Refusals,
    Table::Transactions,
    Table::Failures,
    Table::Words,
];

impl Table {
    /// The name of its file.
    pub fn file(self) -> &'static str {
        match self {
            Table::Values => "values.txt",
            Table::Forms => "forms.txt",
            Table::Schemas => "schemas.txt",
            Table::Canonical => "canonical.txt",
            Table::Overviews => "overviews.txt",
            Table::Features => "features.txt",
            Table::Attributes => "attributes.txt",
            Table::Texts => "texts.txt",
            Table::Faults => "faults.txt",
            Table::Programs => "programs.txt",
            Table::Statements => "statements.txt",
            Table::Queries => "queries.txt",
            Table::Refusals => "refusals.txt",
            Table::Transactions => "transactions.txt",
            Table::Failures => "failures.txt",
            Table::Words => "words.txt",
        }
    }
}

impl Asks for Table {
    fn answer(&self, alloc: Global, case: &Case) -> Result<String, AllocError> {
        match *self {
            Table::Values => values::printed(alloc, case),
            Table::Forms => forms::read_as(alloc, case),
            Table::Schemas => schemas::answer(alloc, &case.whole(alloc)?, Question::Read),
            Table::Canonical => schemas::canonical(alloc, case),
            Table::Overviews => schemas::answer(alloc, &case.text, Question::Overview),
            Table::Features => schemas::answer(alloc, &case.front, Question::Feature(&case.text)),
            Table::Attributes => schemas::answer(
                alloc,
                &case.front,
                Question::Attribute(case.text()),
            ),
            Table::Texts
            | Table::Faults
            | Table::Programs
            | Table::Statements
            | Table::Queries
            | Table::Refusals
            | Table::Transactions => tries::tried(alloc, case),
            Table::Failures => tries::failed(alloc, case),
            Table::Words => tries::commanded(alloc, case),
        }
    }
}
