//! What a qualified name calls.
ghost use Rattle.std.specs.Prelude.{◌≡◌};
ghost use Rattle.std.specs.Option.{option_copied};
ghost use Rattle.st_lattice.specs.Called.{own, inverse, called, called_copied};

use crate::{Attribute, Feature, Schema};

/// What a qualified name calls.
#[derive(Clone, Copy, Debug)]
pub enum Called<A> {
    /// Nothing has the name.
    Nothing,
    /// An attribute.
    Own(A),
    /// The inverse of an attribute.
    Inverse(A),
}

fn own(attribute: Option<&Attribute>) -> Called<&Attribute>
    ensures { called_copied result ≡ own (option_copied attribute.entry) }
{
    match attribute {
        Some(attribute) => Called::Own(attribute),
        None => Called::Nothing,
    }
}

fn inverse(attribute: Option<&Attribute>) -> Called<&Attribute>
    ensures { called_copied result ≡ inverse (option_copied attribute.entry) }
{
    match attribute {
        Some(attribute) => Called::Inverse(attribute),
        None => Called::Nothing,
    }
}

impl Schema {
    /// What this qualified name, `type.name`, calls: nothing, an attribute, or the inverse of one.
    pub fn called(&self, name: &[u8]) -> Called<&Attribute>
        ensures { called_copied result ≡ called self.now name.now }
    {
        match self.lookup(name) {
            Some(Feature::Attribute(number)) => own(self.attribute(number)),
            Some(Feature::Inverse(number)) => inverse(self.attribute(number)),
            None => Called::Nothing,
        }
    }
}
