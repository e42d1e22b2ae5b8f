//! Live entities, kept in order.
ghost use Rattle.std.specs.Prelude.{◌≡◌, ◌≤◌, length, not, filter, slice_get, IfOk, OnOk, OnErr, IsTrue};
ghost use Rattle.std.specs.List.{list_any, position_or_len};
ghost use Rattle.st_values.specs.Order.{entity_before, same_entity};
ghost use Rattle.st_lattice.specs.Lattice.{isa};
ghost use Rattle.st_state.specs.State.{with_entity};
ghost use Rattle.st_plain.specs.Lists.{in_order};

use sqlite_items::Items;
use st_lattice::Schema;
use st_undo::{Sieve, UndoList};
use st_values::{Entities, EntityId, is_entity_before, is_same_entity};
use std::alloc::{AllocError, Global};

fn place_of(entities: &[EntityId], entity: EntityId) -> usize
    requires { IsTrue (in_order entities.now) }
    ensures value { result ≡ position_or_len (λ other. not (entity_before other entity)) entities.now }
    ensures within { result ≤ length entities.now }
{
    entities.partition_point(|other| is_entity_before(*other, entity))
}

fn at(entities: &[EntityId], place: usize) -> Option<EntityId>
    ensures { result ≡ slice_get entities.now place }
{
    entities.get(place).copied()
}

/// Whether an entity is among some.
pub(crate) fn has_entity(entities: &[EntityId], entity: EntityId) -> bool
    requires { IsTrue (in_order entities.now) }
    ensures { result ≡ list_any (same_entity entity) entities.now }
{
    match at(entities, place_of(entities, entity)) {
        Some(other) => is_same_entity(entity, other),
        None => false,
    }
}

fn put(entities: &mut UndoList<EntityId>, entity: EntityId) -> Result<(), AllocError>
    requires { IsTrue (in_order entities.old.items) }
    ensures ok { OnOk result (entities.new.items ≡ with_entity entity entities.old.items) }
    ensures err { OnErr result (entities.new.items ≡ entities.old.items) }
    ensures mark { entities.new.mark ≡ entities.old.mark }
{
    let place = place_of(entities.as_slice(), entity);
    entities.insert(place, entity)
}

/// Adds an entity in its place.
pub(crate) fn put_entity(
    entities: &mut UndoList<EntityId>,
    entity: EntityId,
) -> Result<(), AllocError>
    requires { IsTrue (in_order entities.old.items) }
    ensures ok { OnOk result (entities.new.items ≡ with_entity entity entities.old.items) }
    ensures err { OnErr result (entities.new.items ≡ entities.old.items) }
    ensures mark { entities.new.mark ≡ entities.old.mark }
    ensures order { IsTrue (in_order entities.new.items) }
{
    put(entities, entity)
}

/// Takes one entity.
#[derive(Clone, Copy)]
struct OneEntity {
    entity: EntityId,
}

impl Sieve<EntityId> for OneEntity {
    ghost use Rattle.st_values.specs.Order.{same_entity};

    ghost takes = { λ it other. same_entity other it.entity };

    fn takes(&self, other: &EntityId) -> bool {
        is_same_entity(*other, self.entity)
    }

    fn hole(&self) -> EntityId {
        self.entity
    }
}

/// Makes room for taking an entity out.
pub(crate) fn make_room_for(
    entities: &mut UndoList<EntityId>,
    entity: EntityId,
) -> Result<(), AllocError>
    ensures ok { OnOk result (length (filter (λ other. same_entity other entity) entities.old.items) ≤ entities.new.room) }
    ensures items { entities.new.items ≡ entities.old.items }
    ensures mark { entities.new.mark ≡ entities.old.mark }
{
    entities.make_room_for(&OneEntity { entity })
}

fn take(entities: &mut UndoList<EntityId>, entity: EntityId)
    requires { length (filter (λ other. same_entity other entity) entities.old.items) ≤ entities.old.room }
    ensures items { entities.new.items ≡ filter (λ other. not (same_entity other entity)) entities.old.items }
    ensures mark { entities.new.mark ≡ entities.old.mark }
{
    entities.sift(&OneEntity { entity });
}

/// Takes an entity out, for which there has to be room.
pub(crate) fn take_entity(entities: &mut UndoList<EntityId>, entity: EntityId)
    requires order { IsTrue (in_order entities.old.items) }
    requires room { length (filter (λ other. same_entity other entity) entities.old.items) ≤ entities.old.room }
    ensures items { entities.new.items ≡ filter (λ other. not (same_entity other entity)) entities.old.items }
    ensures mark { entities.new.mark ≡ entities.old.mark }
    ensures order { IsTrue (in_order entities.new.items) }
{
    take(entities, entity);
}

/// The entities that are of a type, in order.
pub(crate) fn entities_of(
    alloc: Global,
    schema: &Schema,
    entities: &[EntityId],
    ty: u16,
) -> Result<Entities, AllocError>
    ensures { IfOk result (λ found. found ≡ filter (λ e. isa schema.now e.ty ty) entities.now) }
{
    let mut found = Items::new(alloc);
    for entity in entities {
        if schema.isa(entity.ty, ty) {
            found.push(*entity)?;
        }
    }
    Ok(found)
}
