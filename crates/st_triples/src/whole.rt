//! Changes of all columns at once.
ghost use Rattle.std.specs.Prelude.{◌≡◌, length, filter, map, IsTrue, IfOk, OnOk, OnErr};
ghost use Rattle.std.specs.List.{list_all};
ghost use Rattle.st_state.specs.State.{speaks_of};
ghost use Rattle.st_triples.specs.Steps.{bare, marked, rolled_back, rid_of, is_roomy};

use crate::column::Column;
use crate::order::{OfEntity, speaks_of};
use st_state::Triple;
use st_values::EntityId;
use std::alloc::{AllocError, Global};

/// How many triples are of an entity or refer to it.
fn count_of(triples: &[Triple], entity: EntityId) -> usize
    ensures { result ≡ length (filter (speaks_of entity) triples.now) }
{
    triples
        .iter()
        .filter(|triple| speaks_of(entity, triple))
        .count()
}

/// Makes room to take out all triples of an entity, and each reference to it.
fn make_room(columns: &mut Vec<Column>, entity: EntityId) -> Result<(), AllocError>
    ensures same { map bare columns.new.items ≡ map bare columns.old.items }
    ensures ok { OnOk result (IsTrue (list_all (is_roomy entity) columns.new.items)) }
{
    for place in 0..columns.len() {
        let cells = &mut columns[place].cells;
        let count = count_of(cells.as_slice(), entity);
        cells.make_room(count)?;
    }
    Ok(())
}

fn sift(columns: &mut Vec<Column>, entity: EntityId)
    requires { IsTrue (list_all (is_roomy entity) columns.old.items) }
    ensures { map bare columns.new.items ≡ map (rid_of entity) columns.old.items }
{
    let sieve = OfEntity { entity };
    for place in 0..columns.len() {
        columns[place].cells.sift(&sieve);
    }
}

/// Takes out all triples of an entity, and each reference to it, or nothing where memory wants.
pub fn take_all_of(columns: &mut Vec<Column>, entity: EntityId) -> Result<(), AllocError>
    ensures ok { OnOk result (map bare columns.new.items ≡ map (rid_of entity) columns.old.items) }
    ensures err { OnErr result (map bare columns.new.items ≡ map bare columns.old.items) }
{
    make_room(columns, entity)?;
    sift(columns, entity);
    Ok(())
}

/// Marks each column as it is.
pub fn set_mark(columns: &mut Vec<Column>)
    ensures { map bare columns.new.items ≡ map marked columns.old.items }
{
    for place in 0..columns.len() {
        columns[place].cells.set_mark();
    }
}

/// Goes back to the mark of each column.
pub fn roll_back(columns: &mut Vec<Column>)
    ensures { map bare columns.new.items ≡ map rolled_back columns.old.items }
{
    for place in 0..columns.len() {
        columns[place].cells.roll_back();
    }
}

fn copy_column(alloc: Global, column: &Column) -> Result<Column, AllocError>
    ensures { IfOk result (λ copied. bare copied ≡ marked column.now) }
{
    Ok(Column {
        attribute: column.attribute,
        cells: column.cells.copy(alloc)?,
    })
}

/// Copies of all columns, each marked as it is.
pub fn copy(alloc: Global, columns: &[Column]) -> Result<Vec<Column>, AllocError>
    ensures { IfOk result (λ copied. map bare copied.items ≡ map marked columns.now) }
{
    let mut all = Vec::new(alloc);
    for column in columns {
        all.push(copy_column(alloc, column)?)?;
    }
    Ok(all)
}
