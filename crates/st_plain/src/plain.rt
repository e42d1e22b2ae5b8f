ghost use Rattle.std.specs.Prelude.{◌≡◌, ◌+◌, ◌<◌, ◌^◌, [], length, slice_index, IfOk, OnOk, OnErr};
ghost use Rattle.st_state.specs.State.{empty_state, next_entity, entity_made, attribute_set, value_at, values_at, turned};
ghost use Rattle.st_plain.specs.Held.{marked};

use crate::entities::put_entity;
use crate::rules;
use st_lattice::{Attribute, Schema};
use st_text::Duplicate;
use st_triples::Triples;
use st_undo::UndoList;
use st_values::{Entities, EntityId, Value, Values};
use std::alloc::{AllocError, Global};
use std::marker::Model;

/// A state of a database, held as lists, and the state at its mark, to which it can go back.
#[derive(Drop)]
pub struct Plain {
    pub(crate) schema: Schema,
    // The schema's attributes, in the order of their numbers.
    pub(crate) by_number: Vec<Attribute>,
    pub(crate) live: UndoList<EntityId>,
    pub(crate) triples: Triples,
    pub(crate) last: UndoList<u32>,
}

impl Model for Plain {
    ghost use Rattle.std.specs.Prelude.{◌≡◌, length, IsTrue};
    ghost use Rattle.st_plain.specs.Held.{Held};

    ghost Value = { Held };

    ghost view = { λ it. record {
      state = record { schema = it.schema; live = it.live.items; triples = it.triples.triples; last = it.last.items };
      mark = record { schema = it.schema; live = it.live.mark; triples = it.triples.mark; last = it.last.mark };
    } };

    ghost use Rattle.st_plain.specs.Lists.{number_before, in_order};
    ghost use Rattle.st_values.specs.Arranged.{arranged};

    ghost invariant = { λ it. (length it.last.items ≡ length it.schema.names) × (length it.last.mark ≡ length it.schema.names)
        × IsTrue (in_order it.live.items) × IsTrue (in_order it.live.mark)
        × (it.by_number.items ≡ arranged number_before it.schema.attributes) };
}

impl Plain {
    /// A state without entities, and the mark at it.
    pub fn new(alloc: Global, schema: Schema) -> Result<Plain, AllocError>
        ensures { IfOk result (λ plain. plain ≡ marked (empty_state schema)) }
    {
        let count = schema.type_names().len();
        let last = vec![in alloc; 0u32; count]?;
        Plain::with_last(alloc, schema, last)
    }

    /// A state without entities, in which these serials were the last given out: one for each type. The mark is at it.
    pub fn starting(alloc: Global, schema: Schema, last: &[u32]) -> Result<Plain, AllocError>
        requires { length last.now ≡ length schema.names }
        ensures { IfOk result (λ plain. plain ≡ marked (record { schema = schema; live = []; triples = []; last = last.now })) }
    {
        let last = Vec::from_slice(alloc, last)?;
        Plain::with_last(alloc, schema, last)
    }

    fn with_last(alloc: Global, schema: Schema, last: Vec<u32>) -> Result<Plain, AllocError>
        requires { length last.items ≡ length schema.names }
        ensures { IfOk result (λ plain. plain ≡ marked (record { schema = schema; live = []; triples = []; last = last.items })) }
    {
        let by_number = rules::by_number(alloc, schema.attributes())?;
        Ok(Plain {
            schema,
            by_number,
            live: UndoList::new(alloc),
            triples: Triples::new(alloc),
            last: UndoList::from_vec(alloc, last),
        })
    }

    /// A copy of the state, with the mark at it.
    pub fn copy(&self, alloc: Global) -> Result<Plain, AllocError>
        ensures { IfOk result (λ plain. plain ≡ marked self.now.state) }
    {
        let schema = self.schema.copy(alloc)?;
        let by_number = rules::by_number(alloc, schema.attributes())?;
        Ok(Plain {
            schema,
            by_number,
            live: self.live.copy(alloc)?,
            triples: self.triples.copy(alloc)?,
            last: self.last.copy(alloc)?,
        })
    }

    /// The schema.
    pub fn schema(&self) -> &Schema
        ensures { result.now ≡ self.now.state.schema }
    {
        &self.schema
    }

    /// Sets the mark at the state.
    pub fn set_mark(&mut self)
        ensures { self.new ≡ marked self.old.state }
    {
        self.live.set_mark();
        self.triples.set_mark();
        self.last.set_mark();
    }

    /// Goes back to the state at the mark.
    pub fn roll_back(&mut self)
        ensures { self.new ≡ marked self.old.mark }
    {
        self.live.roll_back();
        self.triples.roll_back();
        self.last.roll_back();
    }

    /// Makes an entity of the type at this position, with the next serial and no values.
    pub fn make(&mut self, ty: u16) -> Result<EntityId, AllocError>
        requires there { ty < length self.old.state.schema.names }
        requires room { slice_index self.old.state.last ty + 1 < 2 ^ 32 }
        ensures entity { IfOk result (λ entity. entity ≡ next_entity self.old.state ty) }
        ensures ok { OnOk result (self.new.state ≡ entity_made self.old.state ty) }
        ensures err { OnErr result (self.new.state ≡ self.old.state) }
        ensures mark { self.new.mark ≡ self.old.mark }
    {
        let serial = self.last.as_slice()[ty as usize] + 1;
        let entity = EntityId { ty, serial };
        self.last.make_room(1)?;
        put_entity(&mut self.live, entity)?;
        self.last.replace(ty as usize, serial);
        Ok(entity)
    }

    /// A copy of the value of a single-valued attribute of an entity.
    pub fn get(&self, alloc: Global, entity: EntityId, attribute: u16) -> Result<Value, AllocError>
        ensures { IfOk result (λ value. value ≡ value_at attribute entity self.now.state.triples) }
    {
        self.triples.value_at(alloc, attribute, entity)
    }

    /// Copies of the values of an attribute of an entity, in order.
    pub fn members(
        &self,
        alloc: Global,
        entity: EntityId,
        attribute: u16,
    ) -> Result<Values, AllocError>
        ensures { IfOk result (λ values. values ≡ values_at attribute entity self.now.state.triples) }
    {
        self.triples.values_at(alloc, attribute, entity)
    }

    /// The entities whose attribute has a value, or has it in its set, in order.
    pub fn turned(
        &self,
        alloc: Global,
        attribute: u16,
        value: &Value,
    ) -> Result<Entities, AllocError>
        ensures { IfOk result (λ entities. entities ≡ turned attribute value.now self.now.state.triples) }
    {
        self.triples.turned(alloc, attribute, value)
    }

    /// Sets the value of a single-valued attribute of an entity; null where it is to have none.
    pub fn set(
        &mut self,
        alloc: Global,
        entity: EntityId,
        attribute: u16,
        value: Value,
    ) -> Result<(), AllocError>
        ensures ok { OnOk result (self.new.state ≡ attribute_set self.old.state attribute entity value) }
        ensures err { OnErr result (self.new.state ≡ self.old.state) }
        ensures mark { self.new.mark ≡ self.old.mark }
    {
        self.triples.set(alloc, attribute, entity, value)
    }
}
