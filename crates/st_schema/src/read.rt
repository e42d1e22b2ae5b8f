//! A schema from its forms.
ghost use Rattle.std.specs.Prelude.{◌≡◌};
ghost use Rattle.st_text.specs.Answer.{Answers};
ghost use Rattle.st_schema.specs.Written.{told};
ghost use Rattle.st_schema.specs.Checks.{unless, written_fault};
ghost use Rattle.st_schema.specs.Resolved.{resolved};
ghost use Rattle.st_schema.specs.Meaning.{schema_fault, schema_of};

mod options;
mod types;
mod values;

use crate::SchemaFault;
use crate::check::{check_schema, check_written, names_of};
use crate::resolve::resolved;
use crate::written::Written;
use st_lattice::Schema;
use st_sexp::Form;
use std::alloc::Global;

/// Reads the forms of a schema's text: its definition and at least one type behind it.
///
/// The forms have to fit the grammar; then these checks follow, one after another, each over the whole text: the counts
/// of types and attributes, the names of types, their parents, the types of attributes' values, what options go with
/// them, the names of features, whether a name is ambiguous in a type, and the widths of rows.
///
/// # Errors
/// The first fault in text order of the first check that is not passed; `Memory`.
pub fn read_schema(alloc: Global, forms: &[Form]) -> Result<Schema, SchemaFault>
    ensures { Answers told result (schema_of forms.now) }
{
    let written = types::written(alloc, forms)?;
    let schema = numbered(alloc, &written)?;
    checked(alloc, schema)
}

/// A written schema by numbers, where the checks that come before pass.
fn numbered(alloc: Global, written: &Written) -> Result<Schema, SchemaFault>
    ensures { Answers told result (unless (written_fault written.now.types) (resolved written.now)) }
{
    let types = written.types.as_slice();
    let names = names_of(alloc, types)?;
    check_written(alloc, names.as_slice(), types)?;
    Ok(resolved(alloc, names, written)?)
}

/// A schema by numbers, where the checks of it pass.
fn checked(alloc: Global, schema: Schema) -> Result<Schema, SchemaFault>
    ensures { Answers told result (unless (schema_fault schema) schema) }
{
    check_schema(alloc, &schema)?;
    Ok(schema)
}
