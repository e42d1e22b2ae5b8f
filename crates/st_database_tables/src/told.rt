//! Answers as they are printed.

use st_lattice::Schema;
use st_page::PageFault;
use st_pages::Places;
use st_schema::print_schema;
use std::alloc::{AllocError, Global};
use std::fmt::Write;

/// Adds a fault behind a blank: `bad` with the page and the place, `full` or `many` with how many pages, `disk fault`, or
/// `refused` for what these pages never answer. `AllocError` where memory wanted.
pub fn push_fault(out: &mut String, fault: PageFault) -> Result<(), AllocError> {
    match fault {
        PageFault::BadPage { page, place } => write!(out, " bad {page} {place}"),
        PageFault::Full { in_use } => write!(out, " full {in_use}"),
        PageFault::TooManyPages { count } => write!(out, " many {count}"),
        PageFault::DiskFault => out.push_str(" disk fault"),
        PageFault::Conflict { .. } | PageFault::Closed => out.push_str(" refused"),
        PageFault::Memory => Err(AllocError),
    }
}

/// The name of a schema and the length of its canonical text, and of each place its store, its first page, and how many bytes
/// of a row are its key and how many it has.
pub fn told(alloc: Global, schema: &Schema, places: &Places) -> Result<String, AllocError> {
    let text = print_schema(alloc, schema)?;
    let size = text.as_str().len();
    let name = schema.name().as_str();
    let mut out = format!(in alloc; " {name} {size}")?;
    for place in places.as_slice() {
        let store = place.store;
        let first = place.first;
        let key = place.key;
        let width = place.width;
        write!(out, " {store}:{first}:{key}:{width}")?;
    }
    Ok(out)
}

/// The digits of bytes without the zeros at their end.
pub fn digits_of(alloc: Global, bytes: &[u8]) -> Result<String, AllocError> {
    hex::encode(alloc, without_zeros(bytes))
}

/// Bytes without the zeros at their end.
fn without_zeros(bytes: &[u8]) -> &[u8] {
    let last = bytes.iter().rposition(|byte| *byte != 0);
    let size = last.map_or(0, |at| at.saturating_add(1));
    &bytes[..size.min(bytes.len())]
}
