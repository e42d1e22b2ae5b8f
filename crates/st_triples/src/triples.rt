ghost use Rattle.std.specs.Prelude.{◌≡◌, [], not, filter, find, Some, IfOk, OnOk, OnErr};
ghost use Rattle.std.specs.List.{list_any};
ghost use Rattle.st_state.specs.State.{value_at, values_at, turned, same_triple, value_set, triple_added, triple_taken, speaks_of};
ghost use Rattle.st_state.specs.Bases.{is_other};
ghost use Rattle.st_triples.specs.Marked.{triple_of};

use crate::column::{Column, cells_of};
use crate::{columns, search, whole};
use st_state::Triple;
use st_values::{Entities, EntityId, Value, Values};
use std::alloc::{AllocError, Global};
use std::marker::Model;

/// A state's triples, in order, and what they were at the mark.
#[derive(Drop)]
pub struct Triples {
    columns: Vec<Column>,
}

impl Model for Triples {
    ghost use Rattle.st_triples.specs.Marked.{MarkedTriples};

    ghost Value = { MarkedTriples };

    ghost use Rattle.st_triples.specs.Columns.{triples_of, marked_of, AreInOrder};

    ghost view = { λ it. record { triples = triples_of it.columns.items; mark = marked_of it.columns.items } };

    ghost invariant = { λ it. AreInOrder it.columns.items };
}

impl Triples {
    /// No triples, and none at the mark. It takes no memory.
    pub fn new(alloc: Global) -> Triples
        ensures { result ≡ record { triples = []; mark = [] } }
    {
        Triples {
            columns: Vec::new(alloc),
        }
    }

    /// A copy of the value of a single-valued attribute of an entity.
    pub fn value_at(
        &self,
        alloc: Global,
        attribute: u16,
        entity: EntityId,
    ) -> Result<Value, AllocError>
        ensures { IfOk result (λ value. value ≡ value_at attribute entity self.now.triples) }
    {
        search::value_at(alloc, cells_of(&self.columns, attribute), attribute, entity)
    }

    /// Copies of the values of an attribute of an entity, in order.
    pub fn values_at(
        &self,
        alloc: Global,
        attribute: u16,
        entity: EntityId,
    ) -> Result<Values, AllocError>
        ensures { IfOk result (λ values. values ≡ values_at attribute entity self.now.triples) }
    {
        search::values_at(alloc, cells_of(&self.columns, attribute), attribute, entity)
    }

    /// The entities whose attribute has a value, or has it in its set, in order.
    pub fn turned(
        &self,
        alloc: Global,
        attribute: u16,
        value: &Value,
    ) -> Result<Entities, AllocError>
        ensures { IfOk result (λ entities. entities ≡ turned attribute value.now self.now.triples) }
    {
        search::turned(alloc, cells_of(&self.columns, attribute), attribute, value)
    }

    /// Whether an attribute of an entity has a value, or has it in its set.
    pub fn has(&self, attribute: u16, entity: EntityId, value: &Value) -> bool
        ensures { result ≡ list_any (same_triple (triple_of attribute entity value.now)) self.now.triples }
    {
        search::has(cells_of(&self.columns, attribute), attribute, entity, value)
    }

    /// The least other entity whose attribute has a value.
    pub fn other_with(&self, attribute: u16, entity: EntityId, value: &Value) -> Option<EntityId>
        ensures { result ≡ find (is_other (Some entity)) (turned attribute value.now self.now.triples) }
    {
        search::other_with(cells_of(&self.columns, attribute), attribute, entity, value)
    }

    /// Sets the value of a single-valued attribute of an entity; null where it is to have none.
    pub fn set(
        &mut self,
        alloc: Global,
        attribute: u16,
        entity: EntityId,
        value: Value,
    ) -> Result<(), AllocError>
        ensures ok { OnOk result (self.new.triples ≡ value_set attribute entity value self.old.triples) }
        ensures err { OnErr result (self.new.triples ≡ self.old.triples) }
        ensures mark { self.new.mark ≡ self.old.mark }
    {
        columns::set(&mut self.columns, alloc, attribute, entity, value)
    }

    /// Puts a value into the set of an attribute of an entity. Whether it wasn't there.
    pub fn add(
        &mut self,
        alloc: Global,
        attribute: u16,
        entity: EntityId,
        value: Value,
    ) -> Result<bool, AllocError>
        ensures changed { IfOk result (λ changed. changed ≡ not (list_any (same_triple (triple_of attribute entity value)) self.old.triples)) }
        ensures ok { OnOk result (self.new.triples ≡ triple_added (triple_of attribute entity value) self.old.triples) }
        ensures err { OnErr result (self.new.triples ≡ self.old.triples) }
        ensures mark { self.new.mark ≡ self.old.mark }
    {
        let triple = Triple {
            attribute,
            entity,
            value,
        };
        columns::add(&mut self.columns, alloc, triple)
    }

    /// Takes a value out of the set of an attribute of an entity. Whether it was there.
    pub fn take(
        &mut self,
        attribute: u16,
        entity: EntityId,
        value: &Value,
    ) -> Result<bool, AllocError>
        ensures changed { IfOk result (λ changed. changed ≡ list_any (same_triple (triple_of attribute entity value.now)) self.old.triples) }
        ensures ok { OnOk result (self.new.triples ≡ triple_taken (triple_of attribute entity value.now) self.old.triples) }
        ensures err { OnErr result (self.new.triples ≡ self.old.triples) }
        ensures mark { self.new.mark ≡ self.old.mark }
    {
        columns::take(&mut self.columns, attribute, entity, value)
    }

    /// Takes out all triples of an entity, and each reference to it.
    pub fn take_all_of(&mut self, entity: EntityId) -> Result<(), AllocError>
        ensures ok { OnOk result (self.new.triples ≡ filter (λ t. not (speaks_of entity t)) self.old.triples) }
        ensures err { OnErr result (self.new.triples ≡ self.old.triples) }
        ensures mark { self.new.mark ≡ self.old.mark }
    {
        whole::take_all_of(&mut self.columns, entity)
    }

    /// Puts the mark where the triples are. It takes no memory.
    pub fn set_mark(&mut self)
        ensures { self.new ≡ record { triples = self.old.triples; mark = self.old.triples } }
    {
        whole::set_mark(&mut self.columns);
    }

    /// Goes back to the mark. It takes no memory.
    pub fn roll_back(&mut self)
        ensures { self.new ≡ record { triples = self.old.mark; mark = self.old.mark } }
    {
        whole::roll_back(&mut self.columns);
    }

    /// The same triples, and the mark there.
    pub fn copy(&self, alloc: Global) -> Result<Triples, AllocError>
        ensures { IfOk result (λ copied. copied ≡ record { triples = self.now.triples; mark = self.now.triples }) }
    {
        Ok(Triples {
            columns: whole::copy(alloc, &self.columns)?,
        })
    }
}
