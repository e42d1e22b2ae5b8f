//! What a case is answered.
ghost use Rattle.st_schema_bytes.specs.SchemaBytes.{IsShort};

use crate::calls::run;
use crate::given::memory_of;
use crate::indexed::run_indexed;
use crate::schemas::{database, opened, schema_of};
use crate::store::{Asked, asked_in};
use st_cases::{Asks, Case};
use st_page::PageFault;
use st_schema::Schema;
use std::alloc::{AllocError, Global};
use std::fmt::Write;

/// How many calls of pages a case has at most, of those that each fail in turn.
const MOST_CALLS: u64 = 400;

/// A table.
#[derive(Clone, Copy)]
pub enum Table {
    /// Calls on a chain.
    Chains,
    /// Calls on the indexes and inverses of a new database.
    Indexes,
}

impl Asks for Table {
    fn answer(&self, alloc: Global, case: &Case) -> Result<String, AllocError> {
        match case.text().strip_prefix("each: ") {
            Some(text) => each_failing(alloc, *self, &case.front, text),
            None => {
                let mut out = String::new(alloc);
                answered(alloc, *self, &case.front, case.text(), 0, &mut out)?;
                Ok(out)
            }
        }
    }
}

/// The answers of a case with each call of pages failing in turn, up to the first time that none does.
fn each_failing(
    alloc: Global,
    table: Table,
    front: &[u8],
    text: &str,
) -> Result<String, AllocError> {
    let mut out = String::from_str(alloc, " in turn")?;
    for failing in 1..MOST_CALLS {
        write!(out, "\n  {failing}:")?;
        if answered(alloc, table, front, text, failing, &mut out)? {
            break;
        }
    }
    Ok(out)
}

/// Adds the answers of a case where one call of pages fails, or none; whether no call was answered a fault.
fn answered(
    alloc: Global,
    table: Table,
    front: &[u8],
    text: &str,
    failing: u64,
    out: &mut String,
) -> Result<bool, AllocError> {
    match table {
        Table::Chains => match asked_in(str::from_utf8(front).unwrap_or("")) {
            Some(asked) => called(alloc, asked, text, failing, out),
            None => {
                out.push_str(" no place")?;
                Ok(true)
            }
        },
        Table::Indexes => {
            let schema = schema_of(alloc, front)?;
            indexed(alloc, &schema, text, failing, out)
        }
    }
}

/// Adds the answers of calls on the indexes and inverses of a new database.
fn indexed(
    alloc: Global,
    schema: &Schema,
    text: &str,
    failing: u64,
    out: &mut String,
) -> Result<bool, AllocError>
    requires { IsShort schema.now }
{
    let mut sound = database(alloc, schema, 0)?;
    let Ok(Some((schema_there, places))) = opened(alloc, &mut sound) else {
        out.push_str(" no database")?;
        return Ok(true);
    };
    let mut pages = database(alloc, schema, failing)?;
    let ran = run_indexed(alloc, &schema_there, &places, &mut pages, text, out);
    told(ran, out)
}

/// Adds the answers of a case where one call of pages fails, or none; whether no call was answered a fault.
fn called(
    alloc: Global,
    asked: Asked,
    text: &str,
    failing: u64,
    out: &mut String,
) -> Result<bool, AllocError> {
    let mut pages = memory_of(alloc, asked, failing)?;
    let ran = run(alloc, asked, &mut pages, text, out);
    told(ran, out)
}

/// Adds the fault of calls, if there is one; whether there is none.
fn told(ran: Result<(), PageFault>, out: &mut String) -> Result<bool, AllocError> {
    match ran {
        Ok(()) => Ok(true),
        Err(fault) => {
            push_fault(out, fault)?;
            Ok(false)
        }
    }
}

/// Adds a fault behind a blank: `bad` with the page and the place, `full` or `many` with how many pages, `disk fault`, or
/// `refused` for what these pages never answer. `AllocError` where memory wanted.
fn push_fault(out: &mut String, fault: PageFault) -> Result<(), AllocError> {
    match fault {
        PageFault::BadPage { page, place } => write!(out, " bad {page} {place}"),
        PageFault::Full { in_use } => write!(out, " full {in_use}"),
        PageFault::TooManyPages { count } => write!(out, " many {count}"),
        PageFault::DiskFault => out.push_str(" disk fault"),
        PageFault::Conflict { .. } | PageFault::Closed => out.push_str(" refused"),
        PageFault::Memory => Err(AllocError),
    }
}
