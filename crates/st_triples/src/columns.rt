//! Changes of triples that are kept by attribute.
ghost use Rattle.std.specs.Prelude.{◌≡◌, not, filter, IfOk, OnOk, OnErr};
ghost use Rattle.std.specs.List.{list_any};
ghost use Rattle.st_state.specs.State.{is_at, same_triple, with_triple, triple_added, triple_taken, value_set, speaks_of};
ghost use Rattle.st_triples.specs.Marked.{triple_of};
ghost use Rattle.st_triples.specs.Columns.{triples_of, marked_of, AreInOrder, IsColumnAt};

use crate::cells;
use crate::column::{Column, open, search};
use st_state::Triple;
use st_values::{EntityId, Value};
use std::alloc::{AllocError, Global};

fn clear_at(
    columns: &mut Vec<Column>,
    place: usize,
    attribute: u16,
    entity: EntityId,
) -> Result<(), AllocError>
    requires in_order { AreInOrder columns.old.items }
    requires there { IsColumnAt attribute columns.old.items place }
    ensures in_order { AreInOrder columns.new.items }
    ensures ok { OnOk result (triples_of columns.new.items ≡ filter (λ other. not (is_at attribute entity other)) (triples_of columns.old.items)) }
    ensures err { OnErr result (triples_of columns.new.items ≡ triples_of columns.old.items) }
    ensures mark { marked_of columns.new.items ≡ marked_of columns.old.items }
{
    cells::clear(&mut columns[place].cells, attribute, entity)
}

fn set_at(columns: &mut Vec<Column>, place: usize, triple: Triple) -> Result<(), AllocError>
    requires in_order { AreInOrder columns.old.items }
    requires there { IsColumnAt triple.attribute columns.old.items place }
    ensures in_order { AreInOrder columns.new.items }
    ensures ok { OnOk result (triples_of columns.new.items ≡ with_triple triple (filter (λ other. not (is_at triple.attribute triple.entity other)) (triples_of columns.old.items))) }
    ensures err { OnErr result (triples_of columns.new.items ≡ triples_of columns.old.items) }
    ensures mark { marked_of columns.new.items ≡ marked_of columns.old.items }
{
    cells::set(&mut columns[place].cells, triple)
}

fn add_at(columns: &mut Vec<Column>, place: usize, triple: Triple) -> Result<bool, AllocError>
    requires in_order { AreInOrder columns.old.items }
    requires there { IsColumnAt triple.attribute columns.old.items place }
    ensures in_order { AreInOrder columns.new.items }
    ensures changed { IfOk result (λ changed. changed ≡ not (list_any (same_triple triple) (triples_of columns.old.items))) }
    ensures ok { OnOk result (triples_of columns.new.items ≡ triple_added triple (triples_of columns.old.items)) }
    ensures err { OnErr result (triples_of columns.new.items ≡ triples_of columns.old.items) }
    ensures mark { marked_of columns.new.items ≡ marked_of columns.old.items }
{
    cells::add(&mut columns[place].cells, triple)
}

fn take_at(
    columns: &mut Vec<Column>,
    place: usize,
    attribute: u16,
    entity: EntityId,
    value: &Value,
) -> Result<bool, AllocError>
    requires in_order { AreInOrder columns.old.items }
    requires there { IsColumnAt attribute columns.old.items place }
    ensures in_order { AreInOrder columns.new.items }
    ensures changed { IfOk result (λ changed. changed ≡ list_any (same_triple (triple_of attribute entity value.now)) (triples_of columns.old.items)) }
    ensures ok { OnOk result (triples_of columns.new.items ≡ triple_taken (triple_of attribute entity value.now) (triples_of columns.old.items)) }
    ensures err { OnErr result (triples_of columns.new.items ≡ triples_of columns.old.items) }
    ensures mark { marked_of columns.new.items ≡ marked_of columns.old.items }
{
    cells::take(&mut columns[place].cells, attribute, entity, value)
}

fn clear(columns: &mut Vec<Column>, attribute: u16, entity: EntityId) -> Result<(), AllocError>
    requires { AreInOrder columns.old.items }
    ensures in_order { AreInOrder columns.new.items }
    ensures ok { OnOk result (triples_of columns.new.items ≡ filter (λ other. not (is_at attribute entity other)) (triples_of columns.old.items)) }
    ensures err { OnErr result (triples_of columns.new.items ≡ triples_of columns.old.items) }
    ensures mark { marked_of columns.new.items ≡ marked_of columns.old.items }
{
    match search(columns, attribute) {
        Ok(place) => clear_at(columns, place, attribute, entity),
        Err(_) => Ok(()),
    }
}

fn set_triple(columns: &mut Vec<Column>, alloc: Global, triple: Triple) -> Result<(), AllocError>
    requires { AreInOrder columns.old.items }
    ensures in_order { AreInOrder columns.new.items }
    ensures ok { OnOk result (triples_of columns.new.items ≡ with_triple triple (filter (λ other. not (is_at triple.attribute triple.entity other)) (triples_of columns.old.items))) }
    ensures err { OnErr result (triples_of columns.new.items ≡ triples_of columns.old.items) }
    ensures mark { marked_of columns.new.items ≡ marked_of columns.old.items }
{
    let place = open(columns, alloc, triple.attribute)?;
    set_at(columns, place, triple)
}

/// Sets the value of a single-valued attribute of an entity; null where it is to have none.
pub fn set(
    columns: &mut Vec<Column>,
    alloc: Global,
    attribute: u16,
    entity: EntityId,
    value: Value,
) -> Result<(), AllocError>
    requires { AreInOrder columns.old.items }
    ensures in_order { AreInOrder columns.new.items }
    ensures ok { OnOk result (triples_of columns.new.items ≡ value_set attribute entity value (triples_of columns.old.items)) }
    ensures err { OnErr result (triples_of columns.new.items ≡ triples_of columns.old.items) }
    ensures mark { marked_of columns.new.items ≡ marked_of columns.old.items }
{
    match value {
        Value::Null => clear(columns, attribute, entity),
        value => set_triple(
            columns,
            alloc,
            Triple {
                attribute,
                entity,
                value,
            },
        ),
    }
}

/// Adds a triple, where it isn't there yet. Whether it wasn't.
pub fn add(columns: &mut Vec<Column>, alloc: Global, triple: Triple) -> Result<bool, AllocError>
    requires { AreInOrder columns.old.items }
    ensures in_order { AreInOrder columns.new.items }
    ensures changed { IfOk result (λ changed. changed ≡ not (list_any (same_triple triple) (triples_of columns.old.items))) }
    ensures ok { OnOk result (triples_of columns.new.items ≡ triple_added triple (triples_of columns.old.items)) }
    ensures err { OnErr result (triples_of columns.new.items ≡ triples_of columns.old.items) }
    ensures mark { marked_of columns.new.items ≡ marked_of columns.old.items }
{
    let place = open(columns, alloc, triple.attribute)?;
    add_at(columns, place, triple)
}

/// Takes a triple out. Whether it was there.
pub fn take(
    columns: &mut Vec<Column>,
    attribute: u16,
    entity: EntityId,
    value: &Value,
) -> Result<bool, AllocError>
    requires { AreInOrder columns.old.items }
    ensures in_order { AreInOrder columns.new.items }
    ensures changed { IfOk result (λ changed. changed ≡ list_any (same_triple (triple_of attribute entity value.now)) (triples_of columns.old.items)) }
    ensures ok { OnOk result (triples_of columns.new.items ≡ triple_taken (triple_of attribute entity value.now) (triples_of columns.old.items)) }
    ensures err { OnErr result (triples_of columns.new.items ≡ triples_of columns.old.items) }
    ensures mark { marked_of columns.new.items ≡ marked_of columns.old.items }
{
    match search(columns, attribute) {
        Ok(place) => take_at(columns, place, attribute, entity, value),
        Err(_) => Ok(false),
    }
}
