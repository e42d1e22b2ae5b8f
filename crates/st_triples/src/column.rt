//! A column of triples, and where it stands among others.
ghost use Rattle.std.specs.Prelude.{◌≡◌, nat_lt, IfOk, IfErr};
ghost use Rattle.st_triples.specs.Parts.{IsPlace};
ghost use Rattle.st_triples.specs.Columns.{triples_of, marked_of, AreInOrder, IsColumnAt, IsGapAt, IsPart};

use st_state::Triple;
use st_undo::UndoList;
use std::alloc::{AllocError, Global};

/// The triples of an attribute.
#[derive(Drop)]
pub struct Column {
    /// The attribute's number.
    pub attribute: u16,
    /// The triples, in order.
    pub cells: UndoList<Triple>,
}

fn place_of(columns: &[Column], attribute: u16) -> usize
    requires { AreInOrder columns.now }
    ensures { IsPlace (λ c. nat_lt c.attribute attribute) columns.now result }
{
    columns.partition_point(|column| column.attribute < attribute)
}

/// Where the column of an attribute is, or where it goes.
pub fn search(columns: &[Column], attribute: u16) -> Result<usize, usize>
    requires { AreInOrder columns.now }
    ensures there { IfOk result (IsColumnAt attribute columns.now) }
    ensures absent { IfErr result (IsGapAt attribute columns.now) }
{
    let place = place_of(columns, attribute);
    if place == columns.len() {
        return Err(place);
    }
    if columns[place].attribute == attribute {
        Ok(place)
    } else {
        Err(place)
    }
}

/// The triples of an attribute.
pub fn cells_of(columns: &[Column], attribute: u16) -> &[Triple]
    requires { AreInOrder columns.now }
    ensures { IsPart attribute result.now (triples_of columns.now) }
{
    match search(columns, attribute) {
        Ok(place) => columns[place].cells.as_slice(),
        Err(_) => &[],
    }
}

/// The place of the column of an attribute, which is made where there is none.
pub fn open(columns: &mut Vec<Column>, alloc: Global, attribute: u16) -> Result<usize, AllocError>
    requires { AreInOrder columns.old.items }
    ensures there { IfOk result (IsColumnAt attribute columns.new.items) }
    ensures in_order { AreInOrder columns.new.items }
    ensures triples { triples_of columns.new.items ≡ triples_of columns.old.items }
    ensures mark { marked_of columns.new.items ≡ marked_of columns.old.items }
{
    match search(columns, attribute) {
        Ok(place) => Ok(place),
        Err(place) => {
            let cells = UndoList::new(alloc);
            columns.insert(place, Column { attribute, cells })?;
            Ok(place)
        }
    }
}
