//! A new database, by the text of its schema.
ghost use Rattle.std.specs.Prelude.{◌≡◌, ◌≤◌, Ok, IfOk, IfSome, IsTrue, vec_len};
ghost use Rattle.std.specs.List.{All};
ghost use Rattle.st_catalog.specs.Stores.{AreOf};
ghost use Rattle.st_schema.specs.Meaning.{schema_of as forms_schema};
ghost use Rattle.st_schema_bytes.specs.SchemaBytes.{IsShort};
ghost use Rattle.st_store.specs.Stores.{IsPlace};

use crate::store::is_place;
use st_catalog::read_database;
use st_memory_pages::MemoryPages;
use st_new_database::new_database;
use st_page::PageFault;
use st_pages::{Pages, Places};
use st_schema::{Schema, SchemaFault, laws_of_canonical_texts, read_schema};
use st_sexp::{Form, read};
use std::alloc::{AllocError, Global};

/// The schema of a text; want of memory where it is none, or longer than texts may be.
pub fn schema_of(alloc: Global, text: &[u8]) -> Result<Schema, AllocError>
    ensures { IfOk result (λ schema. IsShort schema) }
{
    if text.len() > 1048576 {
        return Err(AllocError);
    }
    match read(alloc, text) {
        Ok(forms) => match short_schema(alloc, forms.as_slice()) {
            Ok(schema) => Ok(schema),
            Err(_) => Err(AllocError),
        },
        Err(_) => Err(AllocError),
    }
}

fn short_schema(alloc: Global, forms: &[Form]) -> Result<Schema, SchemaFault>
    ensures { IfOk result (λ schema. IsShort schema) }
{
    laws_of_canonical_texts();
    schema_from(alloc, forms)
}

fn schema_from(alloc: Global, forms: &[Form]) -> Result<Schema, SchemaFault>
    ensures { IfOk result (λ schema. forms_schema forms.now ≡ Ok schema) }
{
    match read_schema(alloc, forms) {
        Ok(schema) => Ok(schema),
        Err(fault) => Err(fault),
    }
}

/// Pages in memory, those of a new database with a schema. One call fails, if its number isn't 0.
pub fn database(alloc: Global, schema: &Schema, failing: u64) -> Result<MemoryPages, AllocError>
    requires { IsShort schema.now }
{
    let images = new_database(alloc, schema)?;
    if images.len() > 65536 {
        return Err(AllocError);
    }
    let mut calls = Vec::new(alloc);
    if failing != 0 {
        calls.push(failing)?;
    }
    MemoryPages::new(alloc, images, calls)
}

/// Whether all places may be those of stores.
fn are_places(places: &Places) -> bool
    ensures { IsTrue result → All IsPlace places.now }
{
    for place in places.as_slice() {
        if !is_place(*place) {
            return false;
        }
    }
    true
}

/// The schema and the places that pages have, if these may be those of stores.
pub fn opened<P: Pages>(alloc: Global, pages: &mut P) -> Result<Option<(Schema, Places)>, PageFault>
    ensures of { IfOk result (λ found. IfSome found (λ pair. AreOf pair.0 pair.1)) }
    ensures fair { IfOk result (λ found. IfSome found (λ pair. All IsPlace pair.1)) }
{
    let (schema, places) = match read_database(alloc, pages) {
        Ok(found) => found,
        Err(fault) => return Err(fault),
    };
    if are_places(&places) {
        Ok(Some((schema, places)))
    } else {
        Ok(None)
    }
}
