//! Features by their qualified names.
ghost use Rattle.std.specs.Prelude.{◌≡◌, ◌++◌, ℕ, List, [], Some, None, if◌then◌else◌, drop, slice_index_or, flat_map, IfOk, OnOk};
ghost use Rattle.std.specs.Str.{bytes_eq};
ghost use Rattle.st_lattice.specs.Outline.{qualified_by};
ghost use Rattle.st_lattice.specs.Features.{named, inverse, is_called, first_called};
ghost use Rattle.st_lattice.specs.Made.{entry};

use crate::{Attribute, Feature, Named};
use sqlite_items::Items;
use st_values::{Duplicate, Kind, Letters};
use std::alloc::{AllocError, Global};
use std::collections::BTreeMap;

/// Features by their qualified names.
pub(crate) type Table = BTreeMap<Vec<u8>, Feature>;

/// The feature with a name.
pub(crate) fn find(table: &Table, name: &[u8]) -> Option<Feature>
    ensures { result ≡ entry table.now name.now }
{
    table.get(name).copied()
}

/// Puts a feature under a name, in place of any that stood there.
fn put(table: &mut Table, name: Vec<u8>, feature: Feature) -> Result<(), AllocError>
    ensures { OnOk result ((other : List ℕ) → entry table.new other ≡ (if bytes_eq other name.items then Some feature else entry table.old other)) }
{
    table.insert(name, feature)?;
    Ok(())
}

fn name_at(names: &[Letters], ty: u16) -> &[u8]
    ensures { result.now ≡ slice_index_or names.now ty [] }
{
    match names.get(ty as usize) {
        Some(name) => name.as_slice(),
        None => &[],
    }
}

/// A short name behind its type's, with a dot between.
fn qualified_by(
    alloc: Global,
    names: &[Letters],
    ty: u16,
    name: &[u8],
) -> Result<Vec<u8>, AllocError>
    ensures { IfOk result (λ qualified. qualified.items ≡ qualified_by names.now ty name.now) }
{
    let mut qualified = Vec::new(alloc);
    qualified.extend_from_slice(name_at(names, ty))?;
    qualified.push(b'.')?;
    qualified.extend_from_slice(name)?;
    Ok(qualified)
}

fn push_inverse(
    alloc: Global,
    features: &mut Items<Named>,
    attribute: &Attribute,
) -> Result<(), AllocError>
    ensures { OnOk result (features.new ≡ features.old ++ inverse attribute.now) }
{
    if let (Some(name), Kind::Entity(ty)) = (&attribute.inverse, attribute.kind) {
        features.push(Named {
            ty,
            name: name.copy(alloc)?,
            feature: Feature::Inverse(attribute.number),
        })?;
    }
    Ok(())
}

fn push_named(
    alloc: Global,
    features: &mut Items<Named>,
    attribute: &Attribute,
) -> Result<(), AllocError>
    ensures { OnOk result (features.new ≡ features.old ++ named attribute.now) }
{
    features.push(Named {
        ty: attribute.owner,
        name: attribute.name.copy(alloc)?,
        feature: Feature::Attribute(attribute.number),
    })?;
    push_inverse(alloc, features, attribute)
}

/// The features of attributes, each attribute before its inverse.
pub(crate) fn features_of(
    alloc: Global,
    attributes: &[Attribute],
) -> Result<Items<Named>, AllocError>
    ensures { IfOk result (λ found. found ≡ flat_map named attributes.now) }
{
    let mut features = Items::new(alloc);
    for attribute in attributes {
        push_named(alloc, &mut features, attribute)?;
    }
    Ok(features)
}

fn put_feature(
    alloc: Global,
    table: &mut Table,
    names: &[Letters],
    feature: &Named,
) -> Result<(), AllocError>
    ensures { OnOk result ((other : List ℕ) → entry table.new other
        ≡ (if is_called names.now other feature.now then Some feature.now.feature else entry table.old other)) }
{
    let name = qualified_by(alloc, names, feature.ty, feature.name.as_slice())?;
    put(table, name, feature.feature)
}

/// The features of types whose names are given. Of several with one name the first is found.
pub(crate) fn table_of(
    alloc: Global,
    names: &[Letters],
    features: &[Named],
) -> Result<Table, AllocError>
    ensures { IfOk result (λ table. (name : List ℕ) → entry table name ≡ first_called names.now name features.now) }
{
    let mut table = BTreeMap::new(alloc);
    let mut index = features.len();
    while index > 0 {
        index -= 1;
        put_feature(alloc, &mut table, names, &features[index])?;
    }
    Ok(table)
}
