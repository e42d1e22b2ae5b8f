//! What an entity is to get.
ghost use Rattle.std.specs.Prelude.{◌≡◌, [], ◌∷◌, ◌++◌, filter_map, IfOk, OnOk};
ghost use Rattle.std.specs.Option.{option_copied};
ghost use Rattle.st_makes.specs.Makes.{given_to, value_in, is_key, new_filling, new_fillings, filling_by, given_fillings};

use crate::given::{Given, given_to};
use sqlite_items::Items;
use st_lattice::{Attribute, Schema};
use st_text::Duplicate;
use st_values::Value;
use std::alloc::{AllocError, Global};

/// What an attribute is to get.
#[derive(Debug, Drop)]
pub(crate) struct Filling {
    /// The attribute.
    pub attribute: Attribute,
    /// Its value.
    pub value: Value,
    /// Whether it has to be one.
    pub wanted: bool,
}

fn value_in(alloc: Global, given: Option<&Given>) -> Result<Value, AllocError>
    ensures { IfOk result (λ value. value ≡ value_in (option_copied given.entry)) }
{
    match given {
        Some(given) => given.value.copy(alloc),
        None => Ok(Value::Null),
    }
}

fn is_key(key: Option<u16>, number: u16) -> bool
    ensures { result ≡ is_key key number }
{
    match key {
        Some(key) => key == number,
        None => false,
    }
}

fn new_filling(
    alloc: Global,
    key: Option<u16>,
    givens: &[Given],
    attribute: &Attribute,
) -> Result<Filling, AllocError>
    ensures { IfOk result (λ filling. filling ≡ new_filling key givens.now attribute.now) }
{
    Ok(Filling {
        attribute: attribute.copy(alloc)?,
        value: value_in(alloc, given_to(givens, attribute.number))?,
        wanted: attribute.no_nulls || is_key(key, attribute.number),
    })
}

/// All attributes of a new entity of a type, each with what is given to it, and a key that has to be given.
pub(crate) fn new_fillings(
    alloc: Global,
    schema: &Schema,
    ty: u16,
    key: Option<u16>,
    givens: &[Given],
) -> Result<Items<Filling>, AllocError>
    ensures { IfOk result (λ fillings. fillings ≡ new_fillings schema.now ty key givens.now) }
{
    let mut fillings = Items::new(alloc);
    for attribute in schema.attributes() {
        if schema.isa(ty, attribute.owner) {
            fillings.push(new_filling(alloc, key, givens, attribute)?)?;
        }
    }
    Ok(fillings)
}

fn filling_by(
    alloc: Global,
    attribute: &Attribute,
    given: Option<&Given>,
) -> Result<Option<Filling>, AllocError>
    ensures { IfOk result (λ filling. filling ≡ filling_by attribute.now (option_copied given.entry)) }
{
    match given {
        Some(given) => Ok(Some(Filling {
            attribute: attribute.copy(alloc)?,
            value: given.value.copy(alloc)?,
            wanted: attribute.no_nulls,
        })),
        None => Ok(None),
    }
}

fn push_filling(
    alloc: Global,
    attribute: &Attribute,
    givens: &[Given],
    fillings: &mut Items<Filling>,
) -> Result<(), AllocError>
    ensures { OnOk result (fillings.new ≡ fillings.old ++ filter_map (λ a. filling_by a (given_to givens.now a.number)) (attribute.now ∷ [])) }
{
    let given = given_to(givens, attribute.number);
    match filling_by(alloc, attribute, given)? {
        Some(filling) => fillings.push(filling),
        None => Ok(()),
    }
}

/// The attributes of a type to which something is given.
pub(crate) fn given_fillings(
    alloc: Global,
    schema: &Schema,
    ty: u16,
    givens: &[Given],
) -> Result<Items<Filling>, AllocError>
    ensures { IfOk result (λ fillings. fillings ≡ given_fillings schema.now ty givens.now) }
{
    let mut fillings = Items::new(alloc);
    for attribute in schema.attributes() {
        if schema.isa(ty, attribute.owner) {
            push_filling(alloc, attribute, givens, &mut fillings)?;
        }
    }
    Ok(fillings)
}
