//! The schema that a written one is, with types and attributes by number.
ghost use Rattle.std.specs.Prelude.{◌≡◌, ◌<◌, ◌≤◌, ◌+◌, ◌++◌, length, map, IfOk, OnOk};
ghost use Rattle.std.specs.List.{list_any};
ghost use Rattle.st_lattice.specs.Outline.{IsOrderly};
ghost use Rattle.st_schema.specs.Checks.{attribute_count};
ghost use Rattle.st_schema.specs.Resolved.{place_of, kind_of, inverse_of, inverse_in, is_unique, is_no_nulls, is_index, is_on, attribute_of_form, attributes_from, all_attributes, resolved};

use crate::written::{AttributeForm, Choice, Names, Setting, TypeForm, Worded, Written};
use sqlite_items::Items;
use st_lattice::{Attribute, Numbers, Schema};
use st_text::{Duplicate, Letters};
use st_values::Kind;
use std::alloc::{AllocError, Global};

/// The position of a name among at most 64; their number where it isn't there.
fn place_of(names: &[Letters], name: &[u8]) -> u16
    requires { length names.now ≤ 64 }
    ensures value { result ≡ place_of names.now name.now }
    ensures within { result ≤ length names.now }
{
    let mut place = 0u16;
    for other in names {
        if other.as_slice() == name {
            return place;
        }
        place += 1;
    }
    place
}

/// The kind of a type of values, by numbers.
fn kind_of(names: &[Letters], worded: &Worded) -> Kind
    requires { length names.now ≤ 64 }
    ensures { result ≡ kind_of names.now worded.now }
{
    match worded {
        Worded::Int => Kind::Int,
        Worded::Bool => Kind::Bool,
        Worded::Text(size) => Kind::Text(*size),
        Worded::Entity(name) => Kind::Entity(place_of(names, name.as_slice())),
    }
}

/// The name of the inverse that an option gives, copied.
fn inverse_of(alloc: Global, setting: &Setting) -> Result<Option<Letters>, AllocError>
    ensures { IfOk result (λ found. found ≡ inverse_of setting.now) }
{
    match setting {
        Setting::Inverse(name) => Ok(Some(name.copy(alloc)?)),
        _ => Ok(None),
    }
}

/// The name of the inverse, where one is given, copied.
fn inverse_in(alloc: Global, choices: &[Choice]) -> Result<Option<Letters>, AllocError>
    ensures { IfOk result (λ found. found ≡ inverse_in choices.now) }
{
    for choice in choices {
        if let Some(name) = inverse_of(alloc, &choice.setting)? {
            return Ok(Some(name));
        }
    }
    Ok(None)
}

/// Whether an option is `:unique t`.
fn is_unique(setting: &Setting) -> bool
    ensures { result ≡ is_unique setting.now }
{
    match setting {
        Setting::Unique(on) => *on,
        _ => false,
    }
}

/// Whether an option is `:no-nulls t`.
fn is_no_nulls(setting: &Setting) -> bool
    ensures { result ≡ is_no_nulls setting.now }
{
    match setting {
        Setting::NoNulls(on) => *on,
        _ => false,
    }
}

/// Whether an option is `:index t`.
fn is_index(setting: &Setting) -> bool
    ensures { result ≡ is_index setting.now }
{
    match setting {
        Setting::Index(on) => *on,
        _ => false,
    }
}

/// Whether `:unique t` is among options.
fn any_unique(choices: &[Choice]) -> bool
    ensures { result ≡ is_on is_unique choices.now }
{
    choices.iter().any(|choice| is_unique(&choice.setting))
}

/// Whether `:no-nulls t` is among options.
fn any_no_nulls(choices: &[Choice]) -> bool
    ensures { result ≡ is_on is_no_nulls choices.now }
{
    choices.iter().any(|choice| is_no_nulls(&choice.setting))
}

/// Whether `:index t` is among options.
fn any_index(choices: &[Choice]) -> bool
    ensures { result ≡ is_on is_index choices.now }
{
    choices.iter().any(|choice| is_index(&choice.setting))
}

/// An attribute by its number and its owner; a unique one keeps an index.
fn attribute_of_form(
    alloc: Global,
    names: &[Letters],
    number: u16,
    owner: u16,
    form: &AttributeForm,
) -> Result<Attribute, AllocError>
    requires { length names.now ≤ 64 }
    ensures { IfOk result (λ attribute. attribute ≡ attribute_of_form names.now number owner form.now) }
{
    let choices = form.choices.as_slice();
    let name = form.name.copy(alloc)?;
    let inverse = inverse_in(alloc, choices)?;
    let unique = any_unique(choices);
    let indexed = any_index(choices);
    Ok(Attribute {
        number,
        owner,
        name,
        kind: kind_of(names, &form.worded),
        many: form.many,
        inverse,
        unique,
        no_nulls: any_no_nulls(choices),
        index: unique || indexed,
        column: false,
    })
}

/// Adds the attributes of one type, numbered from the count of those that are there.
fn push_attributes(
    alloc: Global,
    names: &[Letters],
    owner: u16,
    forms: &[AttributeForm],
    into: &mut Items<Attribute>,
) -> Result<(), AllocError>
    requires names { length names.now ≤ 64 }
    requires few { length into.old + length forms.now ≤ 256 }
    ensures ok { OnOk result (into.new ≡ into.old ++ attributes_from names.now (length into.old) owner forms.now) }
    ensures count { OnOk result (length into.new ≡ length into.old + length forms.now) }
{
    for form in forms {
        let number = into.len() as u16;
        into.push(attribute_of_form(alloc, names, number, owner, form)?)?;
    }
    Ok(())
}

/// The attributes of all types, numbered in text order.
fn all_attributes(
    alloc: Global,
    names: &[Letters],
    types: &[TypeForm],
) -> Result<Items<Attribute>, AllocError>
    requires names { length names.now ≤ 64 }
    requires types { length types.now ≤ 64 }
    requires few { attribute_count types.now ≤ 256 }
    ensures ok { IfOk result (λ attributes. attributes ≡ all_attributes names.now 0 0 types.now) }
    ensures count { IfOk result (λ attributes. length attributes ≡ attribute_count types.now) }
{
    let mut attributes = Items::new(alloc);
    let mut owner = 0u16;
    for ty in types {
        push_attributes(
            alloc,
            names,
            owner,
            ty.attributes.as_slice(),
            &mut attributes,
        )?;
        owner += 1;
    }
    Ok(attributes)
}

/// The positions of names.
fn places_of(alloc: Global, names: &[Letters], parents: &[Letters]) -> Result<Numbers, AllocError>
    requires { length names.now ≤ 64 }
    ensures { IfOk result (λ places. places ≡ map (place_of names.now) parents.now) }
{
    let mut places = Items::new(alloc);
    for parent in parents {
        places.push(place_of(names, parent.as_slice()))?;
    }
    Ok(places)
}

/// The parents of all types, by position.
fn all_parents(
    alloc: Global,
    names: &[Letters],
    types: &[TypeForm],
) -> Result<Items<Numbers>, AllocError>
    requires { length names.now ≤ 64 }
    ensures { IfOk result (λ parents. parents ≡ map (λ t. map (place_of names.now) t.parents) types.now) }
{
    let mut parents = Items::new(alloc);
    for ty in types {
        parents.push(places_of(alloc, names, ty.parents.as_slice())?)?;
    }
    Ok(parents)
}

/// The schema that a written one is, whose checks were passed. `names` are the names of its types.
pub(crate) fn resolved(alloc: Global, names: Names, written: &Written) -> Result<Schema, AllocError>
    requires names { names ≡ map (λ t. t.name) written.now.types }
    requires types { length written.now.types ≤ 64 }
    requires few { attribute_count written.now.types ≤ 256 }
    requires orderly { IsOrderly (resolved written.now) }
    ensures { IfOk result (λ schema. schema ≡ resolved written.now) }
{
    let types = written.types.as_slice();
    let name = written.name.copy(alloc)?;
    let parents = all_parents(alloc, names.as_slice(), types)?;
    let attributes = all_attributes(alloc, names.as_slice(), types)?;
    let next = attributes.len() as u16;
    Schema::new(alloc, name, names, parents, attributes, next)
}
