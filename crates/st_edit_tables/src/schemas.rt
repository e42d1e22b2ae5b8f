//! A new database, by the text of its schema.
ghost use Rattle.std.specs.Prelude.{◌≡◌, Ok, IfOk};
ghost use Rattle.std.specs.List.{All};
ghost use Rattle.st_catalog.specs.Stores.{AreOf};
ghost use Rattle.st_schema.specs.Meaning.{schema_of as forms_schema};
ghost use Rattle.st_schema_bytes.specs.SchemaBytes.{IsShort};
ghost use Rattle.st_store.specs.Stores.{IsPlace};

use st_catalog::read_database;
use st_database::laws_of_places;
use st_memory_pages::MemoryPages;
use st_new_database::new_database;
use st_page::PageFault;
use st_pages::{Pages, Places};
use st_schema::{Schema, SchemaFault, laws_of_canonical_texts, read_schema};
use st_sexp::{Form, read};
use std::alloc::{AllocError, Global};

/// Pages in memory, those of a new database with the schema of a text; want of memory where it is none, or longer than texts may be.
pub fn database(alloc: Global, text: &[u8]) -> Result<MemoryPages, AllocError> {
    if text.len() > 1048576 {
        return Err(AllocError);
    }
    let forms = read(alloc, text).map_err(|_| AllocError)?;
    match short_schema(alloc, forms.as_slice()) {
        Ok(schema) => database_of(alloc, &schema),
        Err(_) => Err(AllocError),
    }
}

fn database_of(alloc: Global, schema: &Schema) -> Result<MemoryPages, AllocError>
    requires { IsShort schema.now }
{
    let images = new_database(alloc, schema)?;
    if images.len() > 65536 {
        return Err(AllocError);
    }
    MemoryPages::new(alloc, images, Vec::new(alloc))
}

fn short_schema(alloc: Global, forms: &[Form]) -> Result<Schema, SchemaFault>
    ensures { IfOk result (λ schema. IsShort schema) }
{
    laws_of_canonical_texts();
    schema_from(alloc, forms)
}

fn schema_from(alloc: Global, forms: &[Form]) -> Result<Schema, SchemaFault>
    ensures { IfOk result (λ schema. forms_schema forms.now ≡ Ok schema) }
{
    match read_schema(alloc, forms) {
        Ok(schema) => Ok(schema),
        Err(fault) => Err(fault),
    }
}

/// The schema and the places that pages have.
pub fn opened<P: Pages>(alloc: Global, pages: &mut P) -> Result<(Schema, Places), PageFault>
    ensures of { IfOk result (λ pair. AreOf pair.0 pair.1) }
    ensures fair { IfOk result (λ pair. All IsPlace pair.1) }
{
    laws_of_places();
    match read_database(alloc, pages) {
        Ok(found) => Ok(found),
        Err(fault) => Err(fault),
    }
}
