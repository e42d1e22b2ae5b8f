//! Footprints of statements, by way of copies.

use st_footprint::{Footprint, footprint};
use st_query::{Statement, Term, literal_value};
use st_schema::{Schema, SchemaFault, read_schema};
use st_sexp::read;
use st_text::Duplicate;
use st_variables::Variables;
use std::alloc::{AllocError, Global};
use std::fmt::Write;

/// The schema of a text; want of memory where it is longer than texts may be.
pub fn schema_of(alloc: Global, text: &[u8]) -> Result<Schema, SchemaFault> {
    if text.len() > 1048576 {
        return Err(SchemaFault::Memory);
    }
    match read(alloc, text) {
        Ok(forms) => read_schema(alloc, forms.as_slice()),
        Err(_) => Err(SchemaFault::Memory),
    }
}

/// The variables that each `let` of a literal binds; other statements bind none.
fn bound(
    alloc: Global,
    schema: &Schema,
    statements: &[Statement],
) -> Result<Variables, AllocError> {
    let mut variables = Variables::new(alloc);
    for statement in statements {
        if let Statement::Let {
            var,
            value: Term::Literal(literal),
        } = statement
        {
            let value = literal_value(alloc, schema, literal)?;
            variables.bind(alloc, var, value)?;
        }
    }
    variables.copy(alloc)
}

/// The stores of the last statement, where those before it bind variables.
pub fn stores(
    alloc: Global,
    schema: &Schema,
    statements: &[Statement],
) -> Result<String, AllocError> {
    match statements {
        [front @ .., last] => {
            let variables = bound(alloc, schema, front)?;
            let found = footprint(alloc, schema, &variables, last)?;
            told(alloc, &found.copy(alloc)?)
        }
        [] => String::from_str(alloc, " no statement"),
    }
}

/// The numbers of stores, each behind a blank.
fn told(alloc: Global, found: &Footprint) -> Result<String, AllocError> {
    let mut out = String::new(alloc);
    for store in found.as_slice() {
        write!(out, " {store}")?;
    }
    if out.is_empty() {
        out.push_str(" none")?;
    }
    Ok(out)
}

/// Whether the last two statements have a common store, where those before them bind variables.
pub fn whether_they_meet(
    alloc: Global,
    schema: &Schema,
    statements: &[Statement],
) -> Result<String, AllocError> {
    match statements {
        [front @ .., first, second] => {
            let variables = bound(alloc, schema, front)?;
            let left = footprint(alloc, schema, &variables, first)?;
            let right = footprint(alloc, schema, &variables, second)?;
            let word = if left.meets(&right) {
                " meet"
            } else {
                " apart"
            };
            String::from_str(alloc, word)
        }
        _ => String::from_str(alloc, " no two statements"),
    }
}
