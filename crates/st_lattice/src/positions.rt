//! The positions of attributes by number.
ghost use Rattle.std.specs.Prelude.{◌≡◌, ◌<◌, ◌==◌, ℕ, Some, length, if◌then◌else◌, IfOk, OnOk};
ghost use Rattle.st_lattice.specs.Made.{position_entry, position_from};

use crate::Attribute;
use std::alloc::{AllocError, Global};
use std::collections::BTreeMap;

/// The positions of attributes, in text order from 0, by number.
pub(crate) type Positions = BTreeMap<u16, u16>;

/// The position of the attribute with a number.
pub(crate) fn find(positions: &Positions, number: u16) -> Option<u16>
    ensures { result ≡ position_entry positions.now number }
{
    positions.get(&number).copied()
}

fn put(positions: &mut Positions, number: u16, at: u16) -> Result<(), AllocError>
    ensures { OnOk result ((other : ℕ) → position_entry positions.new other ≡ (if number == other then Some at else position_entry positions.old other)) }
{
    positions.insert(number, at)?;
    Ok(())
}

/// The positions of attributes. Of several with one number the first is found.
pub(crate) fn positions_of(alloc: Global, attributes: &[Attribute]) -> Result<Positions, AllocError>
    requires { length attributes.now < 65536 }
    ensures { IfOk result (λ positions. (number : ℕ) → position_entry positions number ≡ position_from 0 number attributes.now) }
{
    let mut positions = BTreeMap::new(alloc);
    let mut index = attributes.len();
    while index > 0 {
        index -= 1;
        put(&mut positions, attributes[index].number, index as u16)?;
    }
    Ok(positions)
}
