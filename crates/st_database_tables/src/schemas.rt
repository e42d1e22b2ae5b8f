//! The pages of a new database, by the text of its schema.
ghost use Rattle.std.specs.Prelude.{◌≡◌, Ok, IfOk};
ghost use Rattle.st_schema.specs.Meaning.{schema_of as forms_schema};
ghost use Rattle.st_schema_bytes.specs.SchemaBytes.{IsShort};

use st_image::Page;
use st_new_database::new_database;
use st_schema::{Schema, SchemaFault, laws_of_canonical_texts, read_schema};
use st_sexp::{Form, read};
use std::alloc::{AllocError, Global};

/// The pages of a new database with the schema of a text, or none where the text is no schema.
pub fn pages_of(alloc: Global, text: &[u8]) -> Result<Option<Vec<Page>>, AllocError> {
    match schema_of(alloc, text) {
        Ok(schema) => Ok(Some(new_database(alloc, &schema)?)),
        Err(_) => Ok(None),
    }
}

/// The schema of a text; want of memory where it is longer than texts may be.
pub fn schema_of(alloc: Global, text: &[u8]) -> Result<Schema, SchemaFault>
    ensures { IfOk result (λ schema. IsShort schema) }
{
    if text.len() > 1048576 {
        return Err(SchemaFault::Memory);
    }
    match read(alloc, text) {
        Ok(forms) => short_schema(alloc, forms.as_slice()),
        Err(_) => Err(SchemaFault::Memory),
    }
}

fn short_schema(alloc: Global, forms: &[Form]) -> Result<Schema, SchemaFault>
    ensures { IfOk result (λ schema. IsShort schema) }
{
    laws_of_canonical_texts();
    schema_from(alloc, forms)
}

fn schema_from(alloc: Global, forms: &[Form]) -> Result<Schema, SchemaFault>
    ensures { IfOk result (λ schema. forms_schema forms.now ≡ Ok schema) }
{
    match read_schema(alloc, forms) {
        Ok(schema) => Ok(schema),
        Err(fault) => Err(fault),
    }
}
