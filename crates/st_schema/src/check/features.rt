//! The names of features: those of one type differ, and none is ambiguous in a type.
ghost use Rattle.std.specs.Prelude.{◌≡◌, ◌<◌, [], length, None};
ghost use Rattle.std.specs.Option.{option_map, option_copied};
ghost use Rattle.std.specs.List.{list_any};
ghost use Rattle.st_text.specs.Answer.{Answers};
ghost use Rattle.st_lattice.specs.Lattice.{below};
ghost use Rattle.st_schema.specs.declared.fault.SchemaFault.TheVariants.{Repeated};
ghost use Rattle.st_schema.specs.Written.{told};
ghost use Rattle.st_schema.specs.Checks.{unless};
ghost use Rattle.st_schema.specs.Meaning.{same_place, clash_after, clashes, is_ambiguous, is_before, is_lesser, least_ambiguous, ambiguous_at, first_of};

use crate::SchemaFault;
use st_lattice::{Named, Schema};
use st_text::Duplicate;
use std::alloc::Global;
use std::cmp::Ordering;

/// Whether two features are the same type's, with one name.
fn same_place(feature: &Named, other: &Named) -> bool
    ensures { result ≡ same_place feature.now other.now }
{
    other.ty == feature.ty && other.name.as_slice() == feature.name.as_slice()
}

/// Whether a feature has the type and the name of one of some.
fn stands_in(features: &[Named], feature: &Named) -> bool
    ensures { result ≡ list_any (same_place feature.now) features.now }
{
    features.iter().any(|other| same_place(feature, other))
}

/// Checks that the features of each type have different names.
pub(crate) fn check_clashes(alloc: Global, features: &[Named]) -> Result<(), SchemaFault>
    ensures { Answers told result (unless (option_map Repeated (clash_after [] features.now)) tt) }
{
    let mut index = 0;
    for feature in features {
        if stands_in(&features[..index], feature) {
            return Err(SchemaFault::Repeated {
                name: feature.name.copy(alloc)?,
            });
        }
        index += 1;
    }
    Ok(())
}

/// Whether a feature has the name of another one, and both come to a type from different types.
fn clashes(schema: &Schema, ty: u16, feature: &Named, other: &Named) -> bool
    ensures { result ≡ clashes schema.now ty feature.now other.now }
{
    schema.isa(ty, other.ty)
        && other.ty != feature.ty
        && other.name.as_slice() == feature.name.as_slice()
}

/// Whether a feature clashes with one of some.
fn any_clashes(schema: &Schema, ty: u16, feature: &Named, features: &[Named]) -> bool
    ensures { result ≡ list_any (clashes schema.now ty feature.now) features.now }
{
    features
        .iter()
        .any(|other| clashes(schema, ty, feature, other))
}

/// Whether a type has a feature, and another of the same name from another type.
fn is_ambiguous(schema: &Schema, ty: u16, feature: &Named, features: &[Named]) -> bool
    ensures { result ≡ is_ambiguous schema.now ty features.now feature.now }
{
    schema.isa(ty, feature.ty) && any_clashes(schema, ty, feature, features)
}

/// Whether a text stands before another by bytes.
fn is_before(name: &[u8], other: &[u8]) -> bool
    ensures { result ≡ is_before name.now other.now }
{
    name.cmp(other) == Ordering::Less
}

/// Whether a feature's name is less than the least so far.
fn is_lesser(least: Option<&Named>, feature: &Named) -> bool
    ensures { result ≡ is_lesser (option_copied least.entry) feature.now }
{
    match least {
        Some(least) => is_before(feature.name.as_slice(), least.name.as_slice()),
        None => true,
    }
}

/// The ambiguous feature of a type whose name is least by bytes.
fn least_ambiguous<'a>(schema: &Schema, ty: u16, features: &'a [Named]) -> Option<&'a Named>
    ensures { option_copied result ≡ least_ambiguous schema.now ty features.now None features.now }
{
    let mut least = None;
    for feature in features {
        if is_ambiguous(schema, ty, feature, features) && is_lesser(least, feature) {
            least = Some(feature);
        }
    }
    least
}

/// Checks that no feature is ambiguous in a type.
fn check_ambiguous(
    alloc: Global,
    schema: &Schema,
    features: &[Named],
    ty: u16,
) -> Result<(), SchemaFault>
    requires { ty < length schema.now.names }
    ensures { Answers told result (unless (ambiguous_at schema.now features.now ty) tt) }
{
    match least_ambiguous(schema, ty, features) {
        Some(feature) => Err(SchemaFault::AmbiguousName {
            ty: schema.type_name(ty).copy(alloc)?,
            name: feature.name.copy(alloc)?,
        }),
        None => Ok(()),
    }
}

/// Checks that no feature is ambiguous in any type.
pub(crate) fn check_ambiguities(
    alloc: Global,
    schema: &Schema,
    features: &[Named],
) -> Result<(), SchemaFault>
    ensures { Answers told result (unless (first_of (ambiguous_at schema.now features.now) (below (length schema.now.names))) tt) }
{
    for ty in 0..schema.type_count() {
        check_ambiguous(alloc, schema, features, ty)?;
    }
    Ok(())
}
