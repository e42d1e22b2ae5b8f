ghost use Rattle.std.specs.Prelude.{◌≡◌, ◌<◌, ◌≤◌, ◌==◌, ℕ, find, length, position, slice_get, slice_index_or, IfOk, IfSome};
ghost use Rattle.std.specs.Option.{option_copied};
ghost use Rattle.std.specs.List.{All};
ghost use Rattle.std.specs.Str.{bytes_eq};
ghost use Rattle.st_lattice.specs.declared.attribute.Attribute.{Attribute};
ghost use Rattle.st_lattice.specs.Outline.{IsOrderly, IsWithin, parents_of, type_name, type_named, attribute};
ghost use Rattle.st_lattice.specs.Lattice.{isa};
ghost use Rattle.st_lattice.specs.Features.{features, lookup};
ghost use Rattle.st_lattice.specs.Made.{position_from};

use crate::descents::{self, Descents};
use crate::positions::{self, Positions};
use crate::table::{self, Table};
use crate::{Attribute, Feature, Named, Numbers};
use sqlite_items::Items;
use st_values::Letters;
use std::alloc::{AllocError, Global};
use std::marker::Model;

/// The schema of a database: its name, its types in text order, and their attributes in text order.
#[derive(Debug, Drop)]
pub struct Schema {
    pub(crate) name: Letters,
    pub(crate) type_names: Items<Letters>,
    pub(crate) parents: Items<Numbers>,
    pub(crate) attributes: Items<Attribute>,
    pub(crate) next: u16,
    descents: Descents,
    features: Items<Named>,
    table: Table,
    positions: Positions,
}

impl Model for Schema {
    ghost use Rattle.st_lattice.specs.Outline.{Outline};
    ghost use Rattle.st_lattice.specs.Made.{IsMade};

    ghost Value = { Outline };

    ghost view = { λ it. record { name = it.name; names = it.type_names; parents = it.parents; attributes = it.attributes; next = it.next } };

    ghost invariant = { λ it. IsMade (record { name = it.name; names = it.type_names; parents = it.parents; attributes = it.attributes; next = it.next }) it.descents it.features it.table it.positions };
}

impl Schema {
    /// A schema of its lists, with the number that the next new attribute gets. There are at most 64 types, and the
    /// parents of each stand before it; there are at most 256 attributes, and their owners are types.
    pub fn new(
        alloc: Global,
        name: Letters,
        type_names: Items<Letters>,
        parents: Items<Numbers>,
        attributes: Items<Attribute>,
        next: u16,
    ) -> Result<Schema, AllocError>
        requires { IsOrderly (record { name = name; names = type_names; parents = parents; attributes = attributes; next = next }) }
        ensures { IfOk result (λ schema. schema ≡ record { name = name; names = type_names; parents = parents; attributes = attributes; next = next }) }
    {
        let descents = descents::descents_of(alloc, parents.as_slice())?;
        let features = table::features_of(alloc, attributes.as_slice())?;
        let table = table::table_of(alloc, type_names.as_slice(), features.as_slice())?;
        let positions = positions::positions_of(alloc, attributes.as_slice())?;
        Ok(Schema {
            name,
            type_names,
            parents,
            attributes,
            next,
            descents,
            features,
            table,
            positions,
        })
    }

    /// The name of the schema.
    pub fn name(&self) -> &Letters
        ensures { result.now ≡ self.now.name }
    {
        &self.name
    }

    /// How many types there are, at most 64.
    pub fn type_count(&self) -> u16
        ensures { result ≡ length self.now.names }
    {
        self.type_names.len() as u16
    }

    /// How many attributes there are, at most 256.
    pub fn attribute_count(&self) -> u16
        ensures { result ≡ length self.now.attributes }
    {
        self.attributes.len() as u16
    }

    /// The number that the next new attribute gets.
    pub fn next_attribute(&self) -> u16
        ensures { result ≡ self.now.next }
    {
        self.next
    }

    /// The names of the types, in text order.
    pub fn type_names(&self) -> &[Letters]
        ensures { result.now ≡ self.now.names }
    {
        self.type_names.as_slice()
    }

    /// The attributes, in text order: at most 256, whose owners are types, as are those
    /// of their values.
    pub fn attributes(&self) -> &[Attribute]
        ensures value { result.now ≡ self.now.attributes }
        ensures few { length result.now ≤ 256 }
        ensures owners { All (λ a. a.owner < length self.now.names) result.now }
        ensures kinds { All (λ a. IsWithin (length self.now.names) a.kind) result.now }
    {
        self.attributes.as_slice()
    }

    /// The name of the type at this position, from 0.
    pub fn type_name(&self, ty: u16) -> &Letters
        requires { ty < length self.now.names }
        ensures { result.now ≡ type_name self.now ty }
    {
        &self.type_names.as_slice()[ty as usize]
    }

    /// The parents of a type by position, in text order.
    pub fn parents(&self, ty: u16) -> &Numbers
        requires { ty < length self.now.names }
        ensures { result.now ≡ parents_of self.now ty }
    {
        &self.parents.as_slice()[ty as usize]
    }

    /// The attribute at this position in the text, from 0.
    pub fn attribute_at(&self, position: u16) -> &Attribute
        requires { position < length self.now.attributes }
        ensures { (other : Attribute) → result.now ≡ slice_index_or self.now.attributes position other }
    {
        &self.attributes.as_slice()[position as usize]
    }

    /// The position of the type with this name, from 0.
    pub fn type_named(&self, name: &[u8]) -> Option<u16>
        ensures value { result ≡ type_named self.now name.now }
        ensures within { IfSome result (λ ty. ty < length self.now.names) }
    {
        let position = position_of(self.type_names.as_slice(), name)?;
        Some(position as u16)
    }

    /// Whether a type is another one or descends from it. A number that no type has is of itself alone.
    #[tactic(auto, using(crate::proofs::Lattices::said_is))]
    pub fn isa(&self, ty: u16, ancestor: u16) -> bool
        ensures { result ≡ isa self.now ty ancestor }
    {
        let count = self.type_names.len();
        if count <= ty as usize {
            return ty == ancestor;
        }
        if count <= ancestor as usize {
            return ty == ancestor;
        }
        descents::said(self.descents.as_slice(), ty, ancestor)
    }

    /// All features, in text order: each attribute, and behind it its inverse.
    pub fn features(&self) -> &[Named]
        ensures value { result.now ≡ features self.now }
        ensures within { All (λ f. f.ty < length self.now.names) result.now }
    {
        self.features.as_slice()
    }

    /// The feature with this qualified name, `type.name`.
    pub fn lookup(&self, name: &[u8]) -> Option<Feature>
        ensures { result ≡ lookup self.now name.now }
    {
        table::find(&self.table, name)
    }

    /// The attribute with this number.
    pub fn attribute(&self, number: u16) -> Option<&Attribute>
        ensures { option_copied result ≡ attribute self.now number }
    {
        attribute_in(
            self.attributes.as_slice(),
            positions::find(&self.positions, number),
        )
    }
}

/// The attribute at a position, if there is one.
fn attribute_in(attributes: &[Attribute], position: Option<u16>) -> Option<&Attribute>
    ensures { (number : ℕ) → position ≡ position_from 0 number attributes.now → option_copied result ≡ find (λ a. a.number == number) attributes.now }
{
    match position {
        Some(position) => item_at(attributes, position),
        None => None,
    }
}

fn item_at(attributes: &[Attribute], position: u16) -> Option<&Attribute>
    ensures { option_copied result ≡ slice_get attributes.now position }
{
    attributes.get(position as usize)
}

fn position_of(names: &[Letters], name: &[u8]) -> Option<usize>
    ensures value { result ≡ position (λ other. bytes_eq other name.now) names.now }
    ensures within { IfSome result (λ i. i < length names.now) }
{
    names.iter().position(|other| other.as_slice() == name)
}
