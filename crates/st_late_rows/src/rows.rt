//! Rows of calls, each with its answer.

use crate::calls::{Call, called};
use st_late::Late;
use st_plain::{PageFault, Plain};
use st_schema::read_schema;
use st_sexp::read;
use st_values::EntityId;
use std::alloc::{AllocError, Global};
use std::fmt::Write;

/// Its type `person` has the position 0.
const SCHEMA: &str =
    "(define-schema tiny) (define-entity-type person () ((name string) (age integer)))";

/// A call with its name, and the fault of pages that is planned before it.
struct Row(&'static str, Option<PageFault>, Call);

const MAKE: Call = Call::Make(36);

const ASK: Call = Call::Ask(EntityId { ty: 0, serial: 1 });

const ASK_NEXT: Call = Call::Ask(EntityId { ty: 0, serial: 2 });

const ASK_STRANGER: Call = Call::Ask(EntityId { ty: 1, serial: 1 });

const CONFLICT: Option<PageFault> = Some(PageFault::Conflict { page: 8, holder: 3 });

const DISK_FAULT: Option<PageFault> = Some(PageFault::DiskFault);

const FULL: Option<PageFault> = Some(PageFault::Full { in_use: 9 });

/// Rows over a base in which nothing was made.
const EMPTY: &[Row] = &[
    Row("make 36", None, MAKE),
    Row("age of person#1", None, ASK),
    Row("age of person#2", None, ASK_NEXT),
    Row("age of stranger#1", None, ASK_STRANGER),
];

/// A row over a base that holds the person of the rows above.
const STORED: &[Row] = &[Row("age of person#1", None, ASK)];

/// Rows over a base in which nothing was made, with faults of pages that stop a call, and then without.
const STOPPED: &[Row] = &[
    Row("conflict, age of person#1", CONFLICT, ASK),
    Row("conflict, make 36", CONFLICT, MAKE),
    Row("failing disk, age of person#1", DISK_FAULT, ASK),
    Row("failing disk, make 36", DISK_FAULT, MAKE),
    Row("make 36", None, MAKE),
];

/// Rows over a base in which nothing was made, where no page is free.
const REFUSED: &[Row] = &[
    Row("no free page, age of person#1", FULL, ASK),
    Row("no free page, make 36", FULL, MAKE),
];

/// A line for each call with its answer; over a base that reads its store late with whether it was read, and how many
/// faults of pages were met, before the call and behind it.
pub fn rows(alloc: Global) -> Result<String, AllocError> {
    let mut out = String::new(alloc);
    push_rows(alloc, EMPTY, STORED, &mut out)?;
    for rows in [EMPTY, STOPPED, REFUSED] {
        push_rows(alloc, &[], rows, &mut out)?;
    }
    Ok(out)
}

/// Adds the lines of rows over lists, and then of rows over a base in whose store is what the lists hold.
fn push_rows(
    alloc: Global,
    over_lists: &[Row],
    over_late: &[Row],
    out: &mut String,
) -> Result<(), AllocError> {
    let mut plain = lists(alloc)?;
    push_over_lists(alloc, &mut plain, over_lists, out)?;
    push_late(alloc, plain, over_late, out)
}

/// Adds the lines of rows over a base in whose store is what these lists hold.
fn push_late(
    alloc: Global,
    plain: Plain,
    rows: &[Row],
    out: &mut String,
) -> Result<(), AllocError> {
    let mut late = Late::new(plain);
    push_over_late(alloc, &mut late, rows, out)
}

/// Lists in which nothing was made. The text of the schema has no fault, so that only memory can want.
fn lists(alloc: Global) -> Result<Plain, AllocError> {
    let forms = read(alloc, SCHEMA.as_bytes()).map_err(|_| AllocError)?;
    let schema = read_schema(alloc, forms.as_slice()).map_err(|_| AllocError)?;
    Plain::new(alloc, schema)
}

/// Adds the lines of rows over lists.
fn push_over_lists(
    alloc: Global,
    plain: &mut Plain,
    rows: &[Row],
    out: &mut String,
) -> Result<(), AllocError> {
    for Row(name, _, call) in rows {
        let Some(person) = plain.schema().type_named(b"person") else {
            return out.push_str("no person\n");
        };
        let answer = called(plain, alloc, person, *call)?;
        writeln!(out, "lists: {name} => {answer}")?;
    }
    Ok(())
}

/// Adds the lines of rows over a base that reads its store late.
fn push_over_late(
    alloc: Global,
    late: &mut Late,
    rows: &[Row],
    out: &mut String,
) -> Result<(), AllocError> {
    for Row(name, planned, call) in rows {
        if let Some(fault) = planned {
            late.plan(*fault);
        }
        let before = seen(alloc, late)?;
        let Some(person) = late.schema().type_named(b"person") else {
            return out.push_str("no person\n");
        };
        let answer = called(late, alloc, person, *call)?;
        let behind = seen(alloc, late)?;
        writeln!(out, "late: {name}: {before} => {answer}, {behind}")?;
    }
    Ok(())
}

/// Whether the store was read, and how many faults of pages were met.
fn seen(alloc: Global, late: &Late) -> Result<String, AllocError> {
    let word = if late.is_read() { "read" } else { "unread" };
    let met = late.met();
    format!(in alloc; "{word} {met}")
}
