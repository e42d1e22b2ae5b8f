//! Cells of a row that go, in the indexes and the inverses of their attributes.
ghost use Rattle.std.specs.Prelude.{◌≡◌, [], ◌∷◌, true, drop, IfOk, Some};
ghost use Rattle.std.specs.List.{All};
ghost use Rattle.st_lattice.specs.Outline.{attribute as numbered};
ghost use Rattle.st_keys.specs.Keys.{Fits, IsEntity};
ghost use Rattle.st_rows.specs.Rows.{AreHeld, HoldsInCell, cell_fields};
ghost use Rattle.st_pages.specs.Calls.{HandsOn};
ghost use Rattle.st_catalog.specs.Stores.{AreOf};
ghost use Rattle.st_store.specs.Stores.{IsPlace};
ghost use Rattle.st_lookups.specs.Looks.{is_cell};
ghost use Rattle.st_edits.specs.Edits.{PutsStores};
ghost use Rattle.st_removals.specs.Noting.{IsFirstHeld, Notes, NotesThese, cells_behind, gone_first, gone_one, is_cell_of};
ghost use Rattle.st_removals.specs.Taken.{goes};

use st_database::{laws_of_order, laws_of_places, note_pair};
use st_index::fits;
use st_keys::laws_of_keys;
use st_lattice::{Attribute, Schema};
use st_lookups::is_cell;
use st_page::PageFault;
use st_pages::{Pages, Places};
use st_rows::laws_of_rows;
use st_store::Store;
use st_values::{EntityId, Value, is_same};
use std::alloc::Global;

/// Whether a cell goes: each that isn't null, or those that are an entity.
pub(crate) fn goes(which: Option<EntityId>, value: &Value) -> bool
    ensures { result ≡ goes which value.now }
{
    match which {
        Some(entity) => is_same(value, &Value::Entity(entity)),
        None => !is_same(value, &Value::Null),
    }
}

/// Whether an attribute's value is a cell of the rows of a type.
fn is_cell_of(schema: &Schema, ty: u16, attribute: &Attribute) -> bool
    ensures { result ≡ is_cell_of schema.now ty attribute.now }
{
    schema.isa(ty, attribute.owner) && is_cell(attribute)
}

/// Takes a value of an entity, which is the cell of an attribute, out of the attribute's index and inverse.
fn note_value<S: Store, P: Pages>(
    alloc: Global,
    schema: &Schema,
    places: &Places,
    pages: &mut P,
    attribute: &Attribute,
    entity: EntityId,
    value: &Value,
) -> Result<(), PageFault>
    requires of { AreOf schema.now places.now }
    requires fair { All IsPlace places.now }
    requires entity { IsEntity entity }
    ensures follows { P.follows pages.old pages.new }
    ensures met { HandsOn (P.met pages.old) (P.met pages.new) result }
    ensures kinds { PutsStores (P.attempt pages.old) (P.attempt pages.new) }
    ensures notes { numbered schema.now attribute.now.number ≡ Some attribute.now → is_cell attribute.now ≡ true → Fits attribute.now.kind value.now →
        NotesThese S.holds (P.asked pages.old pages.new) (P.attempt pages.old) (P.attempt pages.new) schema.now places.now entity (record { attribute = attribute.now.number; entity = entity; value = value.now } ∷ []) result }
{
    laws_of_keys();
    laws_of_rows();
    laws_of_order();
    laws_of_places();
    let Some(found) = schema.attribute(attribute.number) else {
        return Ok(());
    };
    if !fits(value, found.kind) {
        return Ok(());
    }
    note_pair::<S, P>(
        alloc,
        schema,
        places,
        pages,
        attribute.number,
        entity,
        value,
        &Value::Null,
    )
}

/// The same of a cell, if it goes.
fn note_cell<S: Store, P: Pages>(
    alloc: Global,
    schema: &Schema,
    places: &Places,
    pages: &mut P,
    attribute: &Attribute,
    entity: EntityId,
    which: Option<EntityId>,
    cell: &Value,
) -> Result<(), PageFault>
    requires of { AreOf schema.now places.now }
    requires fair { All IsPlace places.now }
    requires entity { IsEntity entity }
    ensures follows { P.follows pages.old pages.new }
    ensures met { HandsOn (P.met pages.old) (P.met pages.new) result }
    ensures kinds { PutsStores (P.attempt pages.old) (P.attempt pages.new) }
    ensures notes { numbered schema.now attribute.now.number ≡ Some attribute.now → is_cell attribute.now ≡ true → HoldsInCell attribute.now.kind cell.now →
        NotesThese S.holds (P.asked pages.old pages.new) (P.attempt pages.old) (P.attempt pages.new) schema.now places.now entity (gone_one entity which attribute.now cell.now) result }
{
    if !goes(which, cell) {
        return Ok(());
    }
    note_value::<S, P>(alloc, schema, places, pages, attribute, entity, cell)
}

/// The same of the cell at an index, where it is the attribute's in rows of the entity's type. The index of the next attribute's.
fn note_next<S: Store, P: Pages>(
    alloc: Global,
    schema: &Schema,
    places: &Places,
    pages: &mut P,
    attribute: &Attribute,
    entity: EntityId,
    which: Option<EntityId>,
    cells: &[Value],
    index: usize,
) -> Result<usize, PageFault>
    requires of { AreOf schema.now places.now }
    requires fair { All IsPlace places.now }
    requires entity { IsEntity entity }
    ensures follows { P.follows pages.old pages.new }
    ensures met { HandsOn (P.met pages.old) (P.met pages.new) result }
    ensures kinds { PutsStores (P.attempt pages.old) (P.attempt pages.new) }
    ensures behind { IfOk result (λ next. drop next cells.now ≡ cells_behind schema.now entity.ty attribute.now (drop index cells.now)) }
    ensures notes { numbered schema.now attribute.now.number ≡ Some attribute.now → IsFirstHeld schema.now entity.ty attribute.now (drop index cells.now) →
        NotesThese S.holds (P.asked pages.old pages.new) (P.attempt pages.old) (P.attempt pages.new) schema.now places.now entity (gone_first schema.now entity which attribute.now (drop index cells.now)) result }
{
    if index >= cells.len() {
        return Ok(index);
    }
    if !is_cell_of(schema, entity.ty, attribute) {
        return Ok(index);
    }
    match note_cell::<S, P>(
        alloc,
        schema,
        places,
        pages,
        attribute,
        entity,
        which,
        &cells[index],
    ) {
        Ok(()) => Ok(index + 1),
        Err(fault) => Err(fault),
    }
}

/// Takes the cells of an entity's row that go out of the indexes and the inverses of their attributes.
pub(crate) fn note_gone<S: Store, P: Pages>(
    alloc: Global,
    schema: &Schema,
    places: &Places,
    pages: &mut P,
    entity: EntityId,
    cells: &[Value],
    which: Option<EntityId>,
) -> Result<(), PageFault>
    requires of { AreOf schema.now places.now }
    requires fair { All IsPlace places.now }
    requires entity { IsEntity entity }
    requires held { AreHeld (cell_fields schema.now entity.ty) cells.now }
    ensures follows { P.follows pages.old pages.new }
    ensures met { HandsOn (P.met pages.old) (P.met pages.new) result }
    ensures kinds { PutsStores (P.attempt pages.old) (P.attempt pages.new) }
    ensures notes { Notes S.holds (P.asked pages.old pages.new) (P.attempt pages.old) (P.attempt pages.new) schema.now places.now entity which cells.now result }
{
    laws_of_order();
    let mut index = 0;
    for attribute in schema.attributes() {
        match note_next::<S, P>(
            alloc, schema, places, pages, attribute, entity, which, cells, index,
        ) {
            Ok(next) => index = next,
            Err(fault) => return Err(fault),
        }
    }
    Ok(())
}
