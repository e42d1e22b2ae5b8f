//! The widths of rows.
ghost use Rattle.std.specs.Prelude.{◌≡◌, ◌<◌, length};
ghost use Rattle.st_text.specs.Answer.{Answers};
ghost use Rattle.st_lattice.specs.Lattice.{below};
ghost use Rattle.st_schema.specs.Written.{told};
ghost use Rattle.st_schema.specs.Checks.{unless};
ghost use Rattle.st_schema.specs.Meaning.{wide_at, first_of};

use crate::SchemaFault;
use st_lattice::Schema;
use st_text::Duplicate;
use std::alloc::Global;

/// Checks the width of a type's rows.
fn check_width(alloc: Global, schema: &Schema, ty: u16) -> Result<(), SchemaFault>
    requires { ty < length schema.now.names }
    ensures { Answers told result (unless (wide_at schema.now ty) tt) }
{
    let width = schema.row_width(ty);
    if width > 1000 {
        return Err(SchemaFault::RowTooWide {
            ty: schema.type_name(ty).copy(alloc)?,
            width,
        });
    }
    Ok(())
}

/// Checks the widths of all types' rows.
pub(crate) fn check_widths(alloc: Global, schema: &Schema) -> Result<(), SchemaFault>
    ensures { Answers told result (unless (first_of (wide_at schema.now) (below (length schema.now.names))) tt) }
{
    for ty in 0..schema.type_count() {
        check_width(alloc, schema, ty)?;
    }
    Ok(())
}
