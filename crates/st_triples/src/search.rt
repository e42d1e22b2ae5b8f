//! Searches in triples that stand in order.
ghost use Rattle.std.specs.Prelude.{◌≡◌, ◌+◌, ◌==◌, ◌&&◌, filter, find, map, not, Some, IsTrue, IfOk, IfErr};
ghost use Rattle.std.specs.List.{list_any};
ghost use Rattle.std.specs.List.Sorted.{IsPartitionedBy};
ghost use Rattle.std.specs.Option.{option_copied, option_map};
ghost use Rattle.st_values.specs.Order.{same_value, same_entity};
ghost use Rattle.st_values.specs.Arranged.{ascends};
ghost use Rattle.st_values.specs.declared.value.Value.TheVariants.{Null};
ghost use Rattle.st_state.specs.State.{is_at, triple_before, same_triple, value_at, values_at, turned};
ghost use Rattle.st_state.specs.Bases.{is_other};
ghost use Rattle.st_triples.specs.Marked.{triple_of};
ghost use Rattle.st_triples.specs.Parts.{IsPlace, IsRun};

use crate::order;
use sqlite_items::Items;
use st_state::Triple;
use st_text::Duplicate;
use st_values::{Entities, EntityId, Value, Values};
use std::alloc::{AllocError, Global};

/// Where triples stand together: from a place up to another one.
#[derive(Clone, Copy)]
pub struct Run {
    /// The place of the first.
    pub from: usize,
    /// The place behind the last.
    pub to: usize,
}

/// The place of a triple: those in front of it stand before it, and none behind.
fn place_of(triples: &[Triple], attribute: u16, entity: EntityId, value: &Value) -> usize
    requires { IsTrue (ascends triple_before triples.now) }
    ensures { IsPlace (λ other. triple_before other (triple_of attribute entity value.now)) triples.now result }
{
    triples.partition_point(|other| order::is_triple_before(other, attribute, entity, value))
}

/// Where a triple is, or where it goes.
pub fn search(
    triples: &[Triple],
    attribute: u16,
    entity: EntityId,
    value: &Value,
) -> Result<usize, usize>
    requires { IsTrue (ascends triple_before triples.now) }
    ensures there { IfOk result (λ place. IsRun (same_triple (triple_of attribute entity value.now)) triples.now place (place + 1)) }
    ensures place { IfErr result (λ place. IsPlace (λ other. triple_before other (triple_of attribute entity value.now)) triples.now place) }
    ensures absent { IfErr result (λ place. IsRun (same_triple (triple_of attribute entity value.now)) triples.now place place) }
{
    let place = place_of(triples, attribute, entity, value);
    if place == triples.len() {
        return Err(place);
    }
    if order::is_triple(attribute, entity, value, &triples[place]) {
        Ok(place)
    } else {
        Err(place)
    }
}

/// Whether a triple is among some.
pub fn has(triples: &[Triple], attribute: u16, entity: EntityId, value: &Value) -> bool
    requires { IsTrue (ascends triple_before triples.now) }
    ensures { result ≡ list_any (same_triple (triple_of attribute entity value.now)) triples.now }
{
    match search(triples, attribute, entity, value) {
        Ok(_) => true,
        Err(_) => false,
    }
}

/// How many of the first triples are of this attribute of this entity, where they stand in front of
/// all others.
fn count_at(triples: &[Triple], attribute: u16, entity: EntityId) -> usize
    requires { IsPartitionedBy (is_at attribute entity) triples.now }
    ensures { IsPlace (is_at attribute entity) triples.now result }
{
    triples.partition_point(|triple| order::is_at(attribute, entity, triple))
}

/// Where the triples of an attribute of an entity stand, and where null would, in front of them.
pub fn run_of(triples: &[Triple], attribute: u16, entity: EntityId) -> Run
    requires { IsTrue (ascends triple_before triples.now) }
    ensures place { IsPlace (λ other. triple_before other (triple_of attribute entity Null)) triples.now result.from }
    ensures run { IsRun (is_at attribute entity) triples.now result.from result.to }
{
    let from = place_of(triples, attribute, entity, &Value::Null);
    let count = count_at(&triples[from..], attribute, entity);
    Run {
        from,
        to: from + count,
    }
}

fn first_at(triples: &[Triple], attribute: u16, entity: EntityId) -> Option<&Triple>
    requires { IsTrue (ascends triple_before triples.now) }
    ensures { option_copied result ≡ find (is_at attribute entity) triples.now }
{
    let place = place_of(triples, attribute, entity, &Value::Null);
    if place == triples.len() {
        return None;
    }
    if order::is_at(attribute, entity, &triples[place]) {
        Some(&triples[place])
    } else {
        None
    }
}

/// A copy of the value of a single-valued attribute of an entity.
pub fn value_at(
    alloc: Global,
    triples: &[Triple],
    attribute: u16,
    entity: EntityId,
) -> Result<Value, AllocError>
    requires { IsTrue (ascends triple_before triples.now) }
    ensures { IfOk result (λ value. value ≡ value_at attribute entity triples.now) }
{
    match first_at(triples, attribute, entity) {
        Some(triple) => triple.value.copy(alloc),
        None => Ok(Value::Null),
    }
}

fn copies_of_values(alloc: Global, triples: &[Triple]) -> Result<Values, AllocError>
    ensures { IfOk result (λ values. values ≡ map (λ t. t.value) triples.now) }
{
    let mut values = Items::new(alloc);
    for triple in triples {
        values.push(triple.value.copy(alloc)?)?;
    }
    Ok(values)
}

/// Copies of the values of an attribute of an entity, in order.
pub fn values_at(
    alloc: Global,
    triples: &[Triple],
    attribute: u16,
    entity: EntityId,
) -> Result<Values, AllocError>
    requires { IsTrue (ascends triple_before triples.now) }
    ensures { IfOk result (λ values. values ≡ values_at attribute entity triples.now) }
{
    let run = run_of(triples, attribute, entity);
    copies_of_values(alloc, &triples[run.from..run.to])
}

/// The entities whose attribute has a value, or has it in its set, in order.
pub fn turned(
    alloc: Global,
    triples: &[Triple],
    attribute: u16,
    value: &Value,
) -> Result<Entities, AllocError>
    ensures { IfOk result (λ entities. entities ≡ turned attribute value.now triples.now) }
{
    let mut entities = Items::new(alloc);
    for triple in triples {
        if order::has_value(attribute, value, triple) {
            entities.push(triple.entity)?;
        }
    }
    Ok(entities)
}

fn find_other<'a>(
    triples: &'a [Triple],
    attribute: u16,
    entity: EntityId,
    value: &Value,
) -> Option<&'a Triple>
    ensures { option_copied result ≡ find (λ t. ((t.attribute == attribute) && same_value t.value value.now) && not (same_entity entity t.entity)) triples.now }
{
    triples.iter().find(|triple| order::is_others(attribute, entity, value, triple))
}

fn entity_of(triple: Option<&Triple>) -> Option<EntityId>
    ensures { result ≡ option_map (λ t. t.entity) (option_copied triple.entry) }
{
    match triple {
        Some(triple) => Some(triple.entity),
        None => None,
    }
}

/// The least other entity whose attribute has a value.
pub fn other_with(
    triples: &[Triple],
    attribute: u16,
    entity: EntityId,
    value: &Value,
) -> Option<EntityId>
    ensures { result ≡ find (is_other (Some entity)) (turned attribute value.now triples.now) }
{
    entity_of(find_other(triples, attribute, entity, value))
}
