//! A base over lists that counts the values that it is asked for.
ghost use Rattle.std.specs.Prelude.{◌≡◌};

use st_lattice::Schema;
use st_plain::{Base, BaseFault, Plain};
use st_query::{Query, Variable};
use st_select::{Engine, filtered, prepare};
use st_values::{Entities, EntityId, Value, Values};
use std::alloc::Global;

/// Lists, and how many values they were asked for by `get`.
#[derive(Drop)]
pub struct Counting {
    base: Plain,
    gets: u64,
}

impl Counting {
    /// Lists that were not asked for a value yet.
    pub fn new(base: Plain) -> Counting {
        Counting { base, gets: 0 }
    }

    /// The schema.
    pub fn schema(&self) -> &Schema
        ensures { result.now ≡ self.now.base.state.schema }
    {
        self.base.schema()
    }

    /// How many values were asked for.
    pub fn gets(&self) -> u64 {
        self.gets
    }
}

impl Base for Counting {
    ghost use Rattle.std.specs.Prelude.{◌≡◌, ⊤, refl};
    ghost use Rattle.std.proofs.Common.{sym, ◌∙◌, ap};
    ghost use Rattle.st_plain.specs.Base.{nothing_met};

    ghost Witness = { ⊤ };

    ghost schema = { λ c. c.base.state.schema };

    ghost met = { λ _. nothing_met };

    ghost agrees = { λ _ _. ⊤ };

    ghost stands = { λ c _ s. c.base.state ≡ s };

    ghost follows = { λ old new. (new.base.state.schema ≡ old.base.state.schema) × (new.base.mark ≡ old.base.mark) };

    ghost asks = { λ _ _ _ _. ⊤ };

    ghost spared = { λ old new. new.base.state ≡ old.base.state };

    ghost reached = { λ _ _ _ _. ⊤ };

    ghost follows_itself = { λ _. (refl, refl) };

    ghost follows_on = { λ _ _ _ first second. (second.0 ∙ first.0, second.1 ∙ first.1) };

    ghost seen_stays = { λ _ _ _ _ _. tt };

    ghost schema_stays = { λ _ _ stayed. stayed.0 };

    ghost stands_with_schema = { λ _ _ _ stands. sym (ap (λ s. s.schema) stands) };

    ghost reached_stays = { λ _ _ _ _ _ _ _. tt };

    ghost asks_nothing = { λ _ _. tt };

    ghost asks_on = { λ _ _ _ _ _ _ _ _ _ _. tt };

    fn live(&mut self, alloc: Global, entity: EntityId) -> Result<bool, BaseFault> {
        self.base.live(alloc, entity)
    }

    fn make(&mut self, alloc: Global, ty: u16) -> Result<EntityId, BaseFault> {
        Base::make(&mut self.base, alloc, ty)
    }

    fn get(&mut self, alloc: Global, entity: EntityId, attribute: u16) -> Result<Value, BaseFault> {
        self.gets = self.gets.saturating_add(1);
        Base::get(&mut self.base, alloc, entity, attribute)
    }

    fn set(
        &mut self,
        alloc: Global,
        entity: EntityId,
        attribute: u16,
        value: &Value,
    ) -> Result<(), BaseFault> {
        Base::set(&mut self.base, alloc, entity, attribute, value)
    }

    fn members(
        &mut self,
        alloc: Global,
        entity: EntityId,
        attribute: u16,
    ) -> Result<Values, BaseFault> {
        Base::members(&mut self.base, alloc, entity, attribute)
    }

    fn add(
        &mut self,
        alloc: Global,
        entity: EntityId,
        attribute: u16,
        value: &Value,
    ) -> Result<bool, BaseFault> {
        self.base.add(alloc, entity, attribute, value)
    }

    fn take(
        &mut self,
        alloc: Global,
        entity: EntityId,
        attribute: u16,
        value: &Value,
    ) -> Result<bool, BaseFault> {
        self.base.take(alloc, entity, attribute, value)
    }

    fn turned(
        &mut self,
        alloc: Global,
        attribute: u16,
        value: &Value,
    ) -> Result<Entities, BaseFault> {
        Base::turned(&mut self.base, alloc, attribute, value)
    }

    fn delete(&mut self, alloc: Global, entity: EntityId) -> Result<(), BaseFault> {
        self.base.delete(alloc, entity)
    }

    fn list(&mut self, alloc: Global, ty: u16) -> Result<Entities, BaseFault> {
        self.base.list(alloc, ty)
    }
}

impl Engine for Counting {
    fn select(
        &mut self,
        alloc: Global,
        variables: &[Variable],
        query: &Query,
    ) -> Result<Entities, BaseFault> {
        let search = prepare(alloc, self.schema(), variables, query)?;
        filtered(self, alloc, &search)
    }
}
