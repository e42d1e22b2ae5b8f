//! How lists meet the contract of a base: their witness is nothing, and they never meet a fault of pages.
ghost use Rattle.std.specs.Prelude.{◌≡◌};

use crate::entities::{entities_of, has_entity};
use crate::{Base, BaseFault, Plain};
use st_values::{Entities, EntityId, Value, Values};
use std::alloc::Global;

#[tactic(auto, using(crate::proofs::Does::gives, crate::proofs::Does::own, crate::proofs::Does::tells, crate::proofs::Does::schema_stays))]
impl Base for Plain {
    ghost use Rattle.std.specs.Prelude.{◌≡◌, ⊤, refl};
    ghost use Rattle.std.proofs.Common.{sym, ◌∙◌, ap};
    ghost use Rattle.st_plain.specs.Base.{nothing_met};

    ghost Witness = { ⊤ };

    ghost schema = { λ p. p.state.schema };

    ghost met = { λ _. nothing_met };

    ghost agrees = { λ _ _. ⊤ };

    ghost stands = { λ p _ s. p.state ≡ s };

    // The mark stays.
    ghost follows = { λ old new. (new.state.schema ≡ old.state.schema) × (new.mark ≡ old.mark) };

    ghost asks = { λ _ _ _ _. ⊤ };

    ghost spared = { λ old new. new.state ≡ old.state };

    ghost reached = { λ _ _ _ _. ⊤ };

    ghost follows_itself = { λ _. (refl, refl) };

    ghost follows_on = { λ _ _ _ first second. (second.0 ∙ first.0, second.1 ∙ first.1) };

    ghost seen_stays = { λ _ _ _ _ _. tt };

    ghost schema_stays = { λ _ _ stayed. stayed.0 };

    ghost stands_with_schema = { λ _ _ _ stands. sym (ap (λ s. s.schema) stands) };

    ghost reached_stays = { λ _ _ _ _ _ _ _. tt };

    ghost asks_nothing = { λ _ _. tt };

    ghost asks_on = { λ _ _ _ _ _ _ _ _ _ _. tt };

    fn live(&mut self, _alloc: Global, entity: EntityId) -> Result<bool, BaseFault> {
        Ok(has_entity(self.live.as_slice(), entity))
    }

    fn make(&mut self, alloc: Global, ty: u16) -> Result<EntityId, BaseFault> {
        self.make_or_refuse(alloc, ty)
    }

    fn get(&mut self, alloc: Global, entity: EntityId, attribute: u16) -> Result<Value, BaseFault> {
        Ok(Plain::get(self, alloc, entity, attribute)?)
    }

    fn set(
        &mut self,
        alloc: Global,
        entity: EntityId,
        attribute: u16,
        value: &Value,
    ) -> Result<(), BaseFault> {
        self.set_or_refuse(alloc, entity, attribute, value)
    }

    fn members(
        &mut self,
        alloc: Global,
        entity: EntityId,
        attribute: u16,
    ) -> Result<Values, BaseFault> {
        Ok(Plain::members(self, alloc, entity, attribute)?)
    }

    fn add(
        &mut self,
        alloc: Global,
        entity: EntityId,
        attribute: u16,
        value: &Value,
    ) -> Result<bool, BaseFault> {
        self.add_member(alloc, entity, attribute, value)
    }

    fn take(
        &mut self,
        alloc: Global,
        entity: EntityId,
        attribute: u16,
        value: &Value,
    ) -> Result<bool, BaseFault> {
        self.take_member(alloc, entity, attribute, value)
    }

    fn turned(
        &mut self,
        alloc: Global,
        attribute: u16,
        value: &Value,
    ) -> Result<Entities, BaseFault> {
        Ok(Plain::turned(self, alloc, attribute, value)?)
    }

    fn delete(&mut self, alloc: Global, entity: EntityId) -> Result<(), BaseFault> {
        self.delete_or_refuse(alloc, entity)
    }

    fn list(&mut self, alloc: Global, ty: u16) -> Result<Entities, BaseFault> {
        Ok(entities_of(alloc, &self.schema, self.live.as_slice(), ty)?)
    }
}
