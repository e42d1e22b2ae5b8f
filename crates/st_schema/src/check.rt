//! What is checked of a schema: as it is written, before its names are looked up, and once its types and attributes have
//! numbers. Each check refuses the first fault in text order.
ghost use Rattle.std.specs.Prelude.{◌≡◌, map};
ghost use Rattle.st_text.specs.Answer.{Answers};
ghost use Rattle.st_schema.specs.Written.{told};
ghost use Rattle.st_schema.specs.Checks.{unless, written_fault};
ghost use Rattle.st_schema.specs.Meaning.{schema_fault};

mod counts;
mod features;
mod kinds;
mod names;
mod options;
mod widths;

use crate::SchemaFault;
use crate::written::TypeForm;
pub(crate) use names::names_of;
use st_lattice::Schema;
use st_text::Letters;
use std::alloc::Global;

/// Checks types whose names are given: their counts, their names, their parents, the types of attributes' values and
/// the options, check by check.
pub(crate) fn check_written(
    alloc: Global,
    names: &[Letters],
    types: &[TypeForm],
) -> Result<(), SchemaFault>
    requires { names.now ≡ map (λ t. t.name) types.now }
    ensures { Answers told result (unless (written_fault types.now) tt) }
{
    counts::check_counts(types)?;
    names::check_repeated(alloc, names)?;
    names::check_parents(alloc, names, types)?;
    kinds::check_types(alloc, names, types)?;
    options::check_options(types)
}

/// Checks a schema once its types and attributes have numbers: its features' names, whether they are ambiguous, and
/// the widths of rows, check by check.
pub(crate) fn check_schema(alloc: Global, schema: &Schema) -> Result<(), SchemaFault>
    ensures { Answers told result (unless (schema_fault schema.now) tt) }
{
    let features = schema.features();
    features::check_clashes(alloc, features)?;
    features::check_ambiguities(alloc, schema, features)?;
    widths::check_widths(alloc, schema)
}
