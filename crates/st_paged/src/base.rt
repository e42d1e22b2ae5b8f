//! How a database in pages meets the contract of a base: each call is one on its pages.

use crate::answer::as_base;
use crate::{Form, Paged};
use st_deletes::delete_entity;
use st_edits::{add_member, make_entity, set_value, take_member};
use st_lookups::{is_live, list, members, turned, value_of};
use st_pages::Pages;
use st_plain::{Base, BaseFault};
use st_store::Store;
use st_values::{Entities, EntityId, Value, Values};
use std::alloc::Global;

impl<P: Pages> Base for Paged<P> {
    ghost use Rattle.std.specs.Prelude.{⊤};
    ghost use Rattle.st_pages.specs.Attempt.{Array, Agrees};
    ghost use Rattle.st_edits.specs.Edits.{met_of};
    ghost use Rattle.st_paged.specs.Paged.{AsksFor, Continues, IsReached, StandsIn};
    ghost use Rattle.st_paged.specs.Laws as laws;

    ghost Witness = { Array };

    ghost schema = { λ a. a.schema };

    ghost met = { λ a. met_of (P.met a.pages) };

    ghost agrees = { λ a array. Agrees (P.attempt a.pages) array };

    ghost stands = { λ a array s. StandsIn P.attempt ⟦<Form as Store>⟧.holds a array s };

    ghost follows = { λ a b. Continues P.attempt P.follows a b };

    ghost asks = { λ a b array calls. AsksFor P.attempt P.follows ⟦<Form as Store>⟧.holds ⟦<Form as Store>⟧.spot P.asked a b array calls };

    ghost spared = { λ _ _. ⊤ };

    ghost reached = { λ a array e _. IsReached P.attempt a array e };

    ghost follows_itself = { λ a. laws.follows-itself P.attempt P.follows P.follows_itself a };

    ghost follows_on = { λ a b c first second. laws.follows-on P.attempt P.follows P.follows_on a b c first second };

    ghost seen_stays = { λ a b array ab agrees. laws.agrees-before P.attempt P.follows P.seen_stays a b array ab agrees };

    ghost schema_stays = { λ a b ab. ab.same_schema };

    ghost stands_with_schema = { λ a array s stands. stands.of_schema };

    ghost reached_stays = { λ a b array e n ab reached. laws.reached-stays P.attempt P.follows P.seen_stays a b array e ab reached };

    ghost asks_nothing = { λ a array. laws.asks-nothing P.attempt P.follows ⟦<Form as Store>⟧.holds ⟦<Form as Store>⟧.spot P.asked P.asked_nothing a array };

    ghost asks_on = { λ a b c array first second ab bc one two. laws.asks-on P.attempt P.follows ⟦<Form as Store>⟧.holds ⟦<Form as Store>⟧.spot P.asked
        (record { is_sound = P.is_sound; seen_stays = P.seen_stays; drawn_stays = P.drawn_stays; drawn_unwritten = P.drawn_unwritten; follows_on = P.follows_on; asked_more = P.asked_more; asked_on = P.asked_on; asked_tells = P.asked_tells })
        P.written_stays a b c array first second ab bc one two };

    fn live(&mut self, alloc: Global, entity: EntityId) -> Result<bool, BaseFault> {
        as_base(is_live::<Form, P>(alloc, &self.schema, &self.places, &mut self.pages, entity))
    }

    fn make(&mut self, alloc: Global, ty: u16) -> Result<EntityId, BaseFault> {
        make_entity::<Form, P>(alloc, &self.schema, &self.places, &mut self.pages, ty)
    }

    fn get(&mut self, alloc: Global, entity: EntityId, attribute: u16) -> Result<Value, BaseFault> {
        as_base(value_of::<Form, P>(
            alloc,
            &self.schema,
            &self.places,
            &mut self.pages,
            entity,
            attribute,
        ))
    }

    fn set(
        &mut self,
        alloc: Global,
        entity: EntityId,
        attribute: u16,
        value: &Value,
    ) -> Result<(), BaseFault> {
        set_value::<Form, P>(
            alloc,
            &self.schema,
            &self.places,
            &mut self.pages,
            entity,
            attribute,
            value,
        )
    }

    fn members(
        &mut self,
        alloc: Global,
        entity: EntityId,
        attribute: u16,
    ) -> Result<Values, BaseFault> {
        as_base(members::<Form, P>(
            alloc,
            &self.schema,
            &self.places,
            &mut self.pages,
            entity,
            attribute,
        ))
    }

    fn add(
        &mut self,
        alloc: Global,
        entity: EntityId,
        attribute: u16,
        value: &Value,
    ) -> Result<bool, BaseFault> {
        add_member::<Form, P>(
            alloc,
            &self.schema,
            &self.places,
            &mut self.pages,
            entity,
            attribute,
            value,
        )
    }

    fn take(
        &mut self,
        alloc: Global,
        entity: EntityId,
        attribute: u16,
        value: &Value,
    ) -> Result<bool, BaseFault> {
        take_member::<Form, P>(
            alloc,
            &self.schema,
            &self.places,
            &mut self.pages,
            entity,
            attribute,
            value,
        )
    }

    fn turned(
        &mut self,
        alloc: Global,
        attribute: u16,
        value: &Value,
    ) -> Result<Entities, BaseFault> {
        as_base(turned::<Form, P>(
            alloc,
            &self.schema,
            &self.places,
            &mut self.pages,
            attribute,
            value,
        ))
    }

    fn delete(&mut self, alloc: Global, entity: EntityId) -> Result<(), BaseFault> {
        delete_entity::<Form, P>(alloc, &self.schema, &self.places, &mut self.pages, entity)
    }

    fn list(&mut self, alloc: Global, ty: u16) -> Result<Entities, BaseFault> {
        as_base(list::<Form, P>(alloc, &self.schema, &self.places, &mut self.pages, ty))
    }
}
