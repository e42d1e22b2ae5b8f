//! The canonical text of a schema.
ghost use Rattle.std.specs.Prelude.{◌≡◌, ◌<◌, [], ◌∷◌, ◌++◌, codes, length, map, IfOk, OnOk};
ghost use Rattle.std.specs.List.{join_with_byte};
ghost use Rattle.std.specs.Fmt.{decimal};
ghost use Rattle.st_lattice.specs.Outline.{type_name, parents_of};
ghost use Rattle.st_schema.specs.Canonical.{in_list, kind_text, type_text, inverse_items, option_items, attribute_text, own_attributes, type_line, canonical};
ghost use Rattle.st_schema.specs.Parts.{gap, options_of, spaced};

use itoa::Buffer;
use st_lattice::{Attribute, Schema};
use st_text::Letters;
use st_values::Kind;
use std::alloc::{AllocError, Global};

/// The canonical text of a schema: a line for its name and one for each type. `AllocError` where there is no memory.
pub fn print_schema(alloc: Global, schema: &Schema) -> Result<Letters, AllocError>
    ensures { IfOk result (λ text. text ≡ canonical schema.now) }
{
    let mut text = Letters::new(alloc);
    push_first_line(&mut text, schema.name().as_str())?;
    for ty in 0..schema.type_count() {
        push_type_line(&mut text, schema, ty)?;
    }
    Ok(text)
}

/// Adds the definition of a schema's name.
fn push_definition(into: &mut Letters, name: &str) -> Result<(), AllocError>
    ensures { OnOk result (into.new ≡ into.old ++ in_list (codes "define-schema" ∷ name.now ∷ [])) }
{
    into.push_str("(define-schema ")?;
    into.push_str(name)?;
    into.push_str(")")
}

/// Adds the line of the definition.
fn push_first_line(into: &mut Letters, name: &str) -> Result<(), AllocError>
    ensures { OnOk result (into.new ≡ into.old ++ in_list (codes "define-schema" ∷ name.now ∷ []) ++ 10 ∷ []) }
{
    push_definition(into, name)?;
    into.push_str("\n")
}

/// The name of the type at a position; the schema's kinds name only its own types.
fn type_name(schema: &Schema, ty: u16) -> &str
    ensures { result.now ≡ type_name schema.now ty }
{
    match schema.type_names().get(ty as usize) {
        Some(name) => name.as_str(),
        None => "",
    }
}

/// Adds a type of texts, with its size.
fn push_sized_string(into: &mut Letters, size: u8) -> Result<(), AllocError>
    ensures { OnOk result (into.new ≡ into.old ++ in_list (codes "string" ∷ decimal size ∷ [])) }
{
    let mut buffer = Buffer::new();
    into.push_str("(string ")?;
    into.push_str(buffer.format(size))?;
    into.push_str(")")
}

/// Adds a type of single values.
fn push_kind(into: &mut Letters, schema: &Schema, kind: Kind) -> Result<(), AllocError>
    ensures { OnOk result (into.new ≡ into.old ++ kind_text schema.now kind) }
{
    match kind {
        Kind::Int => into.push_str("integer"),
        Kind::Bool => into.push_str("boolean"),
        Kind::Text(size) => push_sized_string(into, size),
        Kind::Entity(ty) => into.push_str(type_name(schema, ty)),
    }
}

/// Adds a type of sets.
fn push_set(into: &mut Letters, schema: &Schema, kind: Kind) -> Result<(), AllocError>
    ensures { OnOk result (into.new ≡ into.old ++ in_list (codes "set-of" ∷ kind_text schema.now kind ∷ [])) }
{
    into.push_str("(set-of ")?;
    push_kind(into, schema, kind)?;
    into.push_str(")")
}

/// Adds the type of an attribute's values.
fn push_value_type(
    into: &mut Letters,
    schema: &Schema,
    many: bool,
    kind: Kind,
) -> Result<(), AllocError>
    ensures { OnOk result (into.new ≡ into.old ++ type_text schema.now many kind) }
{
    if many {
        push_set(into, schema, kind)
    } else {
        push_kind(into, schema, kind)
    }
}

/// Adds the option of an inverse, where there is one, with a space before it.
fn push_inverse(into: &mut Letters, inverse: &Option<Letters>) -> Result<(), AllocError>
    ensures { OnOk result (into.new ≡ into.old ++ spaced (inverse_items inverse.now)) }
{
    match inverse {
        Some(name) => {
            into.push_str(" :inverse ")?;
            into.push_str(name.as_str())
        }
        None => Ok(()),
    }
}

/// Adds an option that is on, with a space before it.
fn push_option(into: &mut Letters, word: &str, on: bool) -> Result<(), AllocError>
    ensures { OnOk result (into.new ≡ into.old ++ spaced (option_items word.now on)) }
{
    if on {
        into.push_str(" ")?;
        into.push_str(word)?;
        into.push_str(" t")
    } else {
        Ok(())
    }
}

/// Adds the options of an attribute, each with a space before it.
fn push_options(into: &mut Letters, attribute: &Attribute) -> Result<(), AllocError>
    ensures { OnOk result (into.new ≡ into.old ++ spaced (options_of attribute.now)) }
{
    push_inverse(into, &attribute.inverse)?;
    push_option(into, ":unique", attribute.unique)?;
    push_option(into, ":no-nulls", attribute.no_nulls)?;
    push_option(into, ":index", attribute.index && !attribute.unique)
}

/// Adds the name and the type of an attribute.
fn push_name_and_type(
    into: &mut Letters,
    schema: &Schema,
    attribute: &Attribute,
) -> Result<(), AllocError>
    ensures { OnOk result (into.new ≡ into.old ++ (attribute.now.name ++ 32 ∷ type_text schema.now attribute.now.many attribute.now.kind)) }
{
    into.push_str(attribute.name.as_str())?;
    into.push_str(" ")?;
    push_value_type(into, schema, attribute.many, attribute.kind)
}

/// Adds what stands between the parentheses of an attribute.
fn push_parts(into: &mut Letters, schema: &Schema, attribute: &Attribute) -> Result<(), AllocError>
    ensures { OnOk result (into.new ≡ into.old ++ join_with_byte 32 (attribute.now.name ∷ type_text schema.now attribute.now.many attribute.now.kind ∷ options_of attribute.now)) }
{
    push_name_and_type(into, schema, attribute)?;
    push_options(into, attribute)
}

/// Adds an attribute.
fn push_attribute(
    into: &mut Letters,
    schema: &Schema,
    attribute: &Attribute,
) -> Result<(), AllocError>
    ensures { OnOk result (into.new ≡ into.old ++ attribute_text schema.now attribute.now) }
{
    into.push_str("(")?;
    push_parts(into, schema, attribute)?;
    into.push_str(")")
}

/// The space between two items, where one stands before.
fn push_gap(into: &mut Letters, later: bool) -> Result<(), AllocError>
    ensures { OnOk result (into.new ≡ into.old ++ gap later) }
{
    if later { into.push_str(" ") } else { Ok(()) }
}

/// Adds an attribute, with a space before it where one stands before.
fn push_own_attribute(
    into: &mut Letters,
    schema: &Schema,
    attribute: &Attribute,
    later: bool,
) -> Result<(), AllocError>
    ensures { OnOk result (into.new ≡ into.old ++ gap later ++ attribute_text schema.now attribute.now) }
{
    push_gap(into, later)?;
    push_attribute(into, schema, attribute)
}

/// Adds a type's own attributes.
fn push_own_attributes(into: &mut Letters, schema: &Schema, ty: u16) -> Result<(), AllocError>
    ensures { OnOk result (into.new ≡ into.old ++ join_with_byte 32 (map (attribute_text schema.now) (own_attributes schema.now ty))) }
{
    let mut later = false;
    for attribute in schema.attributes() {
        if attribute.owner == ty {
            push_own_attribute(into, schema, attribute, later)?;
            later = true;
        }
    }
    Ok(())
}

/// Adds the name of a type, with a space before it where one stands before.
fn push_type_name(
    into: &mut Letters,
    schema: &Schema,
    ty: u16,
    later: bool,
) -> Result<(), AllocError>
    ensures { OnOk result (into.new ≡ into.old ++ gap later ++ type_name schema.now ty) }
{
    push_gap(into, later)?;
    into.push_str(type_name(schema, ty))
}

/// Adds the names of types.
fn push_type_names(into: &mut Letters, schema: &Schema, types: &[u16]) -> Result<(), AllocError>
    ensures { OnOk result (into.new ≡ into.old ++ join_with_byte 32 (map (type_name schema.now) types.now)) }
{
    let mut later = false;
    for ty in types {
        push_type_name(into, schema, *ty, later)?;
        later = true;
    }
    Ok(())
}

/// Adds the list of a type's parents.
fn push_parents(into: &mut Letters, schema: &Schema, ty: u16) -> Result<(), AllocError>
    requires { ty < length schema.now.names }
    ensures { OnOk result (into.new ≡ into.old ++ in_list (map (type_name schema.now) (parents_of schema.now ty))) }
{
    into.push_str("(")?;
    push_type_names(into, schema, schema.parents(ty).as_slice())?;
    into.push_str(")")
}

/// Adds the list of a type's own attributes.
fn push_attributes(into: &mut Letters, schema: &Schema, ty: u16) -> Result<(), AllocError>
    ensures { OnOk result (into.new ≡ into.old ++ in_list (map (attribute_text schema.now) (own_attributes schema.now ty))) }
{
    into.push_str("(")?;
    push_own_attributes(into, schema, ty)?;
    into.push_str(")")
}

/// Adds the front of a type's form, with its name.
fn push_type_front(into: &mut Letters, schema: &Schema, ty: u16) -> Result<(), AllocError>
    ensures { OnOk result (into.new ≡ into.old ++ codes "(define-entity-type " ++ type_name schema.now ty) }
{
    into.push_str("(define-entity-type ")?;
    into.push_str(type_name(schema, ty))
}

/// Adds the two lists of a type's form.
fn push_type_lists(into: &mut Letters, schema: &Schema, ty: u16) -> Result<(), AllocError>
    requires { ty < length schema.now.names }
    ensures { OnOk result (into.new ≡ into.old ++ 32 ∷ in_list (map (type_name schema.now) (parents_of schema.now ty)) ++ 32 ∷ in_list (map (attribute_text schema.now) (own_attributes schema.now ty))) }
{
    into.push_str(" ")?;
    push_parents(into, schema, ty)?;
    into.push_str(" ")?;
    push_attributes(into, schema, ty)
}

/// Adds the form of a type.
fn push_type(into: &mut Letters, schema: &Schema, ty: u16) -> Result<(), AllocError>
    requires { ty < length schema.now.names }
    ensures { OnOk result (into.new ≡ into.old ++
        in_list (codes "define-entity-type" ∷ type_name schema.now ty ∷ in_list (map (type_name schema.now) (parents_of schema.now ty)) ∷ in_list (map (attribute_text schema.now) (own_attributes schema.now ty)) ∷ [])) }
{
    push_type_front(into, schema, ty)?;
    push_type_lists(into, schema, ty)?;
    into.push_str(")")
}

/// Adds the line of a type.
fn push_type_line(into: &mut Letters, schema: &Schema, ty: u16) -> Result<(), AllocError>
    requires { ty < length schema.now.names }
    ensures { OnOk result (into.new ≡ into.old ++ type_line schema.now ty) }
{
    push_type(into, schema, ty)?;
    into.push_str("\n")
}
