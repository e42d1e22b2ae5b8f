//! What a schema's types have: their ancestors, descendants, attributes and rows.
ghost use Rattle.std.specs.Prelude.{◌≡◌, ◌<◌, IfOk};
ghost use Rattle.std.specs.Option.{option_copied};
ghost use Rattle.st_lattice.specs.Lattice.{ancestors, descendants, attributes_of, attribute_of};
ghost use Rattle.st_lattice.specs.Stores.{key_width, cell_width, row_width};

use crate::{Attribute, Numbers, Schema};
use sqlite_items::Items;
use st_values::Kind;
use std::alloc::{AllocError, Global};

impl Schema {
    /// The type and all that it descends from, ascending, each once; none where no type has the number.
    pub fn ancestors(&self, alloc: Global, ty: u16) -> Result<Numbers, AllocError>
        ensures { IfOk result (λ numbers. numbers ≡ ancestors self.now ty) }
    {
        let mut numbers = Items::new(alloc);
        for ancestor in 0..self.type_count() {
            if self.isa(ty, ancestor) {
                numbers.push(ancestor)?;
            }
        }
        Ok(numbers)
    }

    /// The type and all that descend from it, ascending, each once; none where no type has the number.
    pub fn descendants(&self, alloc: Global, ty: u16) -> Result<Numbers, AllocError>
        ensures { IfOk result (λ numbers. numbers ≡ descendants self.now ty) }
    {
        let mut numbers = Items::new(alloc);
        for other in 0..self.type_count() {
            if self.isa(other, ty) {
                numbers.push(other)?;
            }
        }
        Ok(numbers)
    }

    /// The numbers of a type's attributes, its own and inherited ones, each once, in text order.
    pub fn attributes_of(&self, alloc: Global, ty: u16) -> Result<Numbers, AllocError>
        ensures { IfOk result (λ numbers. numbers ≡ attributes_of self.now ty) }
    {
        let mut numbers = Items::new(alloc);
        for attribute in self.attributes() {
            if self.isa(ty, attribute.owner) {
                numbers.push(attribute.number)?;
            }
        }
        Ok(numbers)
    }

    /// The attribute of a type with this short name, its own or an inherited one.
    pub fn attribute_of(&self, ty: u16, name: &[u8]) -> Option<&Attribute>
        ensures { option_copied result ≡ attribute_of self.now ty name.now }
    {
        self.attributes().iter().find(|attribute| self.isa(ty, attribute.owner)
            && attribute.name.as_slice() == name)
    }

    /// How many bytes a row of a type takes.
    pub fn row_width(&self, ty: u16) -> u32
        ensures { result ≡ row_width self.now ty }
    {
        let mut width = 4u32;
        for attribute in self.attributes() {
            if self.isa(ty, attribute.owner) {
                width += cell_width(attribute);
            }
        }
        width
    }
}

fn key_width(kind: Kind) -> u32
    ensures value { result ≡ key_width kind }
    ensures small { result < 257 }
{
    match kind {
        Kind::Int => 8,
        Kind::Bool => 1,
        Kind::Text(limit) => limit as u32 + 1,
        Kind::Entity(_) => 6,
    }
}

fn cell_width(attribute: &Attribute) -> u32
    ensures value { result ≡ cell_width attribute.now }
    ensures small { result < 258 }
{
    if attribute.many || attribute.column {
        0
    } else {
        key_width(attribute.kind) + 1
    }
}
