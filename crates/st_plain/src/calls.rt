//! The calls of a base that are more than one step over lists.
ghost use Rattle.std.specs.Prelude.{◌≡◌, ◌<◌, length, not, IfOk, ⊤};
ghost use Rattle.st_state.specs.State.{has_value, next_entity};
ghost use Rattle.st_state.specs.Calls.{Make, Set, Add, Take, Delete, due};
ghost use Rattle.st_plain.specs.Base.{Does};

use crate::{BaseFault, Plain, entities, rules};
use st_state::Refusal;
use st_text::Duplicate;
use st_values::{EntityId, Value};
use std::alloc::{AllocError, Global};

impl Plain {
    /// Makes an entity of a type, or refuses by rule 9.
    pub fn make_or_refuse(&mut self, alloc: Global, ty: u16) -> Result<EntityId, BaseFault>
        requires { ty < length self.old.state.schema.names }
        ensures does { Does self.old.state (Make ty) (λ entity. entity ≡ next_entity self.old.state ty) self.new.state result }
        ensures mark { self.new.mark ≡ self.old.mark }
    {
        if self.last.as_slice()[ty as usize] == u32::MAX {
            return Err(BaseFault::Refused(rules::spent(alloc, &self.schema, ty)?));
        }
        Ok(self.make(ty)?)
    }

    fn sharing(
        &self,
        alloc: Global,
        entity: EntityId,
        attribute: u16,
        value: &Value,
    ) -> Result<Option<Refusal>, AllocError>
        ensures { IfOk result (λ refusal. refusal ≡ due self.now.state (Set entity attribute value.now)) }
    {
        match self.schema.attribute(attribute) {
            Some(attribute) => {
                rules::not_unique(alloc, &self.schema, &self.triples, attribute, entity, value)
            }
            None => Ok(None),
        }
    }

    /// Sets a value, or refuses by rule 4.
    pub fn set_or_refuse(
        &mut self,
        alloc: Global,
        entity: EntityId,
        attribute: u16,
        value: &Value,
    ) -> Result<(), BaseFault>
        ensures does { Does self.old.state (Set entity attribute value.now) (λ _. ⊤) self.new.state result }
        ensures mark { self.new.mark ≡ self.old.mark }
    {
        if let Some(refusal) = self.sharing(alloc, entity, attribute, value)? {
            return Err(BaseFault::Refused(refusal));
        }
        let value = value.copy(alloc)?;
        self.set(alloc, entity, attribute, value)?;
        Ok(())
    }

    /// Puts a value into a set.
    pub fn add_member(
        &mut self,
        alloc: Global,
        entity: EntityId,
        attribute: u16,
        value: &Value,
    ) -> Result<bool, BaseFault>
        ensures does { Does self.old.state (Add entity attribute value.now) (λ changed. changed ≡ not (has_value self.old.state attribute entity value.now)) self.new.state result }
        ensures mark { self.new.mark ≡ self.old.mark }
    {
        let value = value.copy(alloc)?;
        Ok(self.triples.add(alloc, attribute, entity, value)?)
    }

    /// Takes a value out of a set.
    pub fn take_member(
        &mut self,
        alloc: Global,
        entity: EntityId,
        attribute: u16,
        value: &Value,
    ) -> Result<bool, BaseFault>
        ensures does { Does self.old.state (Take entity attribute value.now) (λ changed. changed ≡ has_value self.old.state attribute entity value.now) self.new.state result }
        ensures mark { self.new.mark ≡ self.old.mark }
    {
        Ok(self.triples.take(attribute, entity, value)?)
    }

    fn needed(&self, alloc: Global, entity: EntityId) -> Result<Option<Refusal>, AllocError>
        ensures { IfOk result (λ refusal. refusal ≡ due self.now.state (Delete entity)) }
    {
        rules::still_needed(alloc, &self.schema, &self.triples, &self.by_number, entity)
    }

    /// Deletes an entity, or refuses by rule 6.
    pub fn delete_or_refuse(&mut self, alloc: Global, entity: EntityId) -> Result<(), BaseFault>
        ensures does { Does self.old.state (Delete entity) (λ _. ⊤) self.new.state result }
        ensures mark { self.new.mark ≡ self.old.mark }
    {
        if let Some(refusal) = self.needed(alloc, entity)? {
            return Err(BaseFault::Refused(refusal));
        }
        entities::make_room_for(&mut self.live, entity)?;
        self.triples.take_all_of(entity)?;
        entities::take_entity(&mut self.live, entity);
        Ok(())
    }
}
