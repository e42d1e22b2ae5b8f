//! Schemas: what a text is read as, and what the schema is asked.

use crate::forms::forms_of;
use crate::lattice;
use st_cases::Case;
use st_schema::{Counted, Schema, SchemaFault, print_schema, read_schema};
use st_text::Duplicate;
use std::alloc::{AllocError, Global};

/// What is asked of a schema.
#[derive(Clone, Copy)]
pub enum Question<'a> {
    /// Only whether it is one.
    Read,
    /// Its canonical text.
    Printed,
    /// What its types have.
    Overview,
    /// What a qualified name stands for.
    Feature(&'a [u8]),
    /// Which attribute a type has by a short name: `type name`.
    Attribute(&'a str),
}

/// What the schema of a text is asked, or its fault.
pub fn answer(alloc: Global, text: &[u8], question: Question<'_>) -> Result<String, AllocError> {
    match schema_of(alloc, text) {
        Ok(schema) => answer_of(alloc, &schema, question),
        Err(fault) => copied_fault(alloc, &fault),
    }
}

/// The schema that a text spells; it has a fault of memory where it is no text forms.
fn schema_of(alloc: Global, text: &[u8]) -> Result<Schema, SchemaFault> {
    match forms_of(alloc, text) {
        Ok(forms) => read_schema(alloc, forms.as_slice()),
        Err(_) => Err(SchemaFault::Memory),
    }
}

fn answer_of(alloc: Global, schema: &Schema, question: Question<'_>) -> Result<String, AllocError> {
    match question {
        Question::Read => String::from_str(alloc, " ok"),
        Question::Printed => Ok(print_schema(alloc, schema)?.into_string()),
        Question::Overview => lattice::overview(alloc, schema),
        Question::Feature(name) => lattice::feature(alloc, schema, name),
        Question::Attribute(names) => lattice::attribute(alloc, schema, names),
    }
}

/// A fault, by way of its copy.
fn copied_fault(alloc: Global, fault: &SchemaFault) -> Result<String, AllocError> {
    let fault = fault.copy(alloc)?;
    fault_text(alloc, &fault)
}

/// The number of a fault, and its fields.
fn fault_text(alloc: Global, fault: &SchemaFault) -> Result<String, AllocError> {
    match fault {
        SchemaFault::Form { place } => format!(in alloc; " 1 {place}"),
        SchemaFault::Repeated { name } => format!(in alloc; " 2 {}", name.as_str()),
        SchemaFault::UnknownParent { name } => format!(in alloc; " 3 {}", name.as_str()),
        SchemaFault::UnknownType { name } => format!(in alloc; " 4 {}", name.as_str()),
        SchemaFault::AmbiguousName { ty, name } => {
            format!(in alloc; " 5 {} {}", ty.as_str(), name.as_str())
        }
        SchemaFault::RowTooWide { ty, width } => format!(in alloc; " 6 {} {width}", ty.as_str()),
        SchemaFault::TooMany { what, count } => match what {
            Counted::Types => format!(in alloc; " 7 types {count}"),
            Counted::Attributes => format!(in alloc; " 7 attributes {count}"),
        },
        SchemaFault::BadOption { place } => format!(in alloc; " 8 {place}"),
        SchemaFault::Memory => String::from_str(alloc, " memory"),
    }
}

/// The canonical text of a schema, and whether that is the canonical text of what it is read as.
pub fn canonical(alloc: Global, case: &Case) -> Result<String, AllocError> {
    let text = case.whole(alloc)?;
    let printed = answer(alloc, &text, Question::Printed)?;
    let again = answer(alloc, printed.as_bytes(), Question::Printed)?;
    let told = if again == printed {
        "; read again, it is the same"
    } else {
        "; read again, it is another one"
    };
    below(alloc, printed.as_str(), told)
}

/// The lines of a text, and one more, each behind a line end and two blanks.
fn below(alloc: Global, text: &str, last: &str) -> Result<String, AllocError> {
    let mut out = String::new(alloc);
    push_lines(&mut out, text)?;
    push_lines(&mut out, last)?;
    Ok(out)
}

/// Adds the lines of a text, each behind a line end and two blanks.
pub fn push_lines(out: &mut String, text: &str) -> Result<(), AllocError> {
    for line in text.lines() {
        out.push_str("\n  ")?;
        out.push_str(line)?;
    }
    Ok(())
}
