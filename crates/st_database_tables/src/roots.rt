//! The pages of both chains of a database.
ghost use Rattle.std.specs.Prelude.{◌≡◌, length, IfOk};
ghost use Rattle.st_lattice.specs.Stores.{stores_of};
ghost use Rattle.st_schema_bytes.specs.SchemaBytes.{IsShort};

use crate::edits::number;
use crate::schemas::schema_of;
use crate::told::digits_of;
use st_image::Page;
use st_new_database::write_roots;
use st_schema::Schema;
use std::alloc::{AllocError, Global};
use std::fmt::Write;

/// The pages of both chains of a database, with their numbers: the front is the text of its schema, and the text the first
/// pages of its stores.
pub fn roots_answer(alloc: Global, front: &[u8], text: &str) -> Result<String, AllocError> {
    match schema_of(alloc, front) {
        Ok(schema) => written(alloc, &schema, text),
        Err(_) => String::from_str(alloc, " no schema"),
    }
}

fn written(alloc: Global, schema: &Schema, text: &str) -> Result<String, AllocError>
    requires { IsShort schema.now }
{
    let firsts = numbers(alloc, text)?;
    if firsts.len() == store_count(alloc, schema)? {
        pages_told(alloc, schema, firsts.as_slice())
    } else {
        String::from_str(alloc, " other stores")
    }
}

fn numbers(alloc: Global, text: &str) -> Result<Vec<u32>, AllocError> {
    let mut numbers = Vec::new(alloc);
    for word in text.split(',') {
        numbers.push(number(word.trim()))?;
    }
    Ok(numbers)
}

fn store_count(alloc: Global, schema: &Schema) -> Result<usize, AllocError>
    ensures { IfOk result (λ count. count ≡ length (stores_of schema.now)) }
{
    let stores = schema.stores_of(alloc)?;
    Ok(stores.len())
}

fn pages_told(alloc: Global, schema: &Schema, firsts: &[u32]) -> Result<String, AllocError>
    requires short { IsShort schema.now }
    requires firsts { length firsts.now ≡ length (stores_of schema.now) }
{
    let mut pages = Vec::new(alloc);
    write_roots(alloc, schema, firsts, &mut pages)?;
    told(alloc, pages.as_slice())
}

fn told(alloc: Global, pages: &[(u32, Page)]) -> Result<String, AllocError> {
    let mut out = String::new(alloc);
    for page in pages {
        push_page(alloc, page.0, &page.1, &mut out)?;
    }
    Ok(out)
}

fn push_page(alloc: Global, number: u32, page: &Page, out: &mut String) -> Result<(), AllocError> {
    let digits = digits_of(alloc, page.bytes())?;
    write!(out, " {number}:{digits}")
}
