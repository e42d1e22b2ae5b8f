//! How many types and attributes there are.
ghost use Rattle.std.specs.Prelude.{◌≡◌};
ghost use Rattle.st_schema.specs.Checks.{unless, attribute_count, counted, too_many};

use crate::written::TypeForm;
use crate::{Counted, SchemaFault};

/// A count, or the greatest one that 32 bits hold.
fn counted(count: usize) -> u32
    ensures { result ≡ counted count }
{
    count.min(u32::MAX as usize) as u32
}

/// How many attributes are written.
fn attribute_count(types: &[TypeForm]) -> u32
    ensures { result ≡ counted (attribute_count types.now) }
{
    let mut count = 0u32;
    for ty in types {
        count = count.saturating_add(counted(ty.attributes.len()));
    }
    count
}

/// Checks the counts of types and of attributes.
pub(crate) fn check_counts(types: &[TypeForm]) -> Result<(), SchemaFault>
    ensures { result ≡ unless (too_many types.now) tt }
{
    if types.len() > 64 {
        let count = counted(types.len());
        return Err(SchemaFault::TooMany {
            what: Counted::Types,
            count,
        });
    }
    let count = attribute_count(types);
    if count > 256 {
        return Err(SchemaFault::TooMany {
            what: Counted::Attributes,
            count,
        });
    }
    Ok(())
}
