//! What the types of a schema have, its stores, and what its names stand for.
ghost use Rattle.std.specs.Prelude.{◌<◌, length};

use st_lattice::{Called, Feature, Schema};
use st_text::Duplicate;
use std::alloc::{AllocError, Global};
use std::fmt::Write;

/// What the types of a schema have, the numbers of its stores, and its features, by way of its copy.
pub fn overview(alloc: Global, schema: &Schema) -> Result<String, AllocError> {
    let schema = schema.copy(alloc)?;
    overview_of(alloc, &schema)
}

fn overview_of(alloc: Global, schema: &Schema) -> Result<String, AllocError> {
    let mut out = String::new(alloc);
    for ty in 0..schema.type_count() {
        push_type(alloc, schema, ty, &mut out)?;
    }
    push_stores(alloc, schema, &mut out)?;
    push_features(schema, &mut out)?;
    Ok(out)
}

/// Adds a type: the bytes of its row, its parents, its ancestors, the types that it is of, and its attributes.
fn push_type(alloc: Global, schema: &Schema, ty: u16, out: &mut String) -> Result<(), AllocError>
    requires { ty < length schema.now.names }
{
    let name = schema.type_name(ty).as_str();
    let width = schema.row_width(ty);
    write!(out, "\n  {name} {width} bytes")?;
    push_numbers(out, "; parents", schema.parents(ty).as_slice())?;
    push_numbers(out, "; of", schema.ancestors(alloc, ty)?.as_slice())?;
    push_descents(schema, ty, out)?;
    push_numbers(out, "; has", schema.attributes_of(alloc, ty)?.as_slice())
}

/// Adds a word, and numbers with a blank before each.
fn push_numbers(out: &mut String, word: &str, numbers: &[u16]) -> Result<(), AllocError> {
    out.push_str(word)?;
    for number in numbers {
        write!(out, " {number}")?;
    }
    Ok(())
}

/// Adds the types that a type is of, each by a question of its own.
fn push_descents(schema: &Schema, ty: u16, out: &mut String) -> Result<(), AllocError> {
    out.push_str("; isa")?;
    for ancestor in 0..schema.type_count() {
        if schema.isa(ty, ancestor) {
            write!(out, " {ancestor}")?;
        }
    }
    Ok(())
}

fn push_stores(alloc: Global, schema: &Schema, out: &mut String) -> Result<(), AllocError> {
    out.push_str("\n  stores")?;
    for store in schema.stores_of(alloc)?.as_slice() {
        write!(out, " {store}")?;
    }
    Ok(())
}

fn push_features(schema: &Schema, out: &mut String) -> Result<(), AllocError> {
    out.push_str("\n  features")?;
    for feature in schema.features() {
        if feature.ty < schema.type_count() {
            let ty = schema.type_name(feature.ty).as_str();
            let name = feature.name.as_str();
            write!(out, " {ty}.{name}")?;
            push_feature(out, feature.feature)?;
        }
    }
    Ok(())
}

/// Adds a feature: `@` for an attribute and `<` for an inverse, with the attribute's number.
fn push_feature(out: &mut String, feature: Feature) -> Result<(), AllocError> {
    match feature {
        Feature::Attribute(number) => write!(out, "@{number}"),
        Feature::Inverse(number) => write!(out, "<{number}"),
    }
}

/// What a qualified name calls, in the same words.
pub fn feature(alloc: Global, schema: &Schema, name: &[u8]) -> Result<String, AllocError> {
    match schema.called(name) {
        Called::Own(attribute) => format!(in alloc; " @{}", attribute.number),
        Called::Inverse(attribute) => format!(in alloc; " <{}", attribute.number),
        Called::Nothing => String::from_str(alloc, " none"),
    }
}

/// The number of the attribute that a type has by a short name.
pub fn attribute(alloc: Global, schema: &Schema, names: &str) -> Result<String, AllocError> {
    let (ty, name) = names.split_once(' ').unwrap_or(("", ""));
    match attribute_of(schema, ty, name) {
        Some(number) => format!(in alloc; " {number}"),
        None => String::from_str(alloc, " none"),
    }
}

fn attribute_of(schema: &Schema, ty: &str, name: &str) -> Option<u16> {
    let ty = schema.type_named(ty.as_bytes())?;
    let attribute = schema.attribute_of(ty, name.as_bytes())?;
    Some(attribute.number)
}
