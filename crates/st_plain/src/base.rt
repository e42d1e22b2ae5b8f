ghost use Rattle.std.specs.Prelude.{◌≡◌, ℕ, ◌<◌, not, ◌++◌, ◌⊎◌, [], ◌∷◌, List, length, is_ok, Err, ⊤};
ghost use Rattle.st_values.specs.declared.value.EntityId.{EntityId};
ghost use Rattle.st_lattice.specs.Outline.{Outline};
ghost use Rattle.st_state.specs.State.{State, is_live, has_value, next_entity, entities_of, value_at, values_at, turned};
ghost use Rattle.st_state.specs.Calls.{Call, Live, Make, Get, Set, Members, Add, Take, Turned, Delete, Listed, HasAttribute, Admits};
ghost use Rattle.st_plain.specs.declared.fault.BaseFault.TheVariants.{Memory};
ghost use Rattle.st_plain.specs.Base.{Met, Gives, IsOwn, TellsMet, fault_behind, Asked, Reaches};

use crate::BaseFault;
use st_values::{Entities, EntityId, Value, Values};
use std::alloc::Global;

/// What a statement runs over: lists, or pages that are asked for one after the other.
///
/// What stands in pages that a base has not seen yet is told by a witness: a whole page array, of which the base has seen
/// a part. Lists are seen whole, and their witness is nothing. What a call gives is said of each witness that agrees with
/// what was seen behind the call, and of each state that it stood for before and that admits the call. So a call may learn
/// of pages, and a caller follows the states that it began with from call to call. A call that no state admits is safe,
/// and nothing is said of what it gives.
///
/// Attributes and types are given by number. After `BaseFault::Page`, and where pages refused, nothing more is promised of
/// the state, and what was begun can only be given up.
pub trait Base {
    // What tells of all that may not have been seen.
    ghost Witness: { Type 0 };

    ghost schema: { Self → Outline };

    // The faults of pages that were met.
    ghost met: { Self → Met };

    // The witness has all that was seen.
    ghost agrees: { Self → Witness → Type 0 };

    // Under what was written, the witness stands for a state; one that is legal but for attributes that admit no null.
    ghost stands: { Self → Witness → State → Type 0 };

    // What each call keeps of what lies below, such as what is committed and what others hold, and what it means that one
    // more fault was met.
    ghost follows: { Self → Self → Type 0 };

    // Between two values no more was asked of the pages of a witness than these calls ask.
    ghost asks: { Self → Self → Witness → List Asked → Type 0 };

    // What a call leaves as it was where memory wants: of lists all, of pages nothing.
    ghost spared: { Self → Self → Type 0 };

    // In a witness, the page was got that has the value of an attribute of an entity.
    ghost reached: { Self → Witness → EntityId → ℕ → Type 0 };

    /// Whether an entity is live; false where its type is not there.
    fn live(&mut self, alloc: Global, entity: EntityId) -> Result<bool, BaseFault>
        ensures gives { (w : Witness) (s : State) → agrees self.new w → stands self.old w s →
            Gives (stands self.new w) s (Live entity) (λ live. live ≡ is_live s entity) result }
        ensures memory { result ≡ Err Memory → spared self.old self.new }
        ensures own { IsOwn (Live entity) result }
        ensures met { TellsMet (met self.old) (met self.new) (fault_behind result) }
        ensures follows { follows self.old self.new }
        ensures asks { (w : Witness) (s : State) → agrees self.new w → stands self.old w s →
            asks self.old self.new w (record { state = s; call = Live entity; answered = is_ok result } ∷ []) };

    /// Makes an entity of a type, with the next serial and no values. Refused by rule 9 where all serials were given out.
    fn make(&mut self, alloc: Global, ty: u16) -> Result<EntityId, BaseFault>
        requires { ty < length (schema self.old).names }
        ensures gives { (w : Witness) (s : State) → agrees self.new w → stands self.old w s →
            Gives (stands self.new w) s (Make ty) (λ entity. entity ≡ next_entity s ty) result }
        ensures memory { result ≡ Err Memory → spared self.old self.new }
        ensures own { IsOwn (Make ty) result }
        ensures met { TellsMet (met self.old) (met self.new) (fault_behind result) }
        ensures follows { follows self.old self.new }
        ensures asks { (w : Witness) (s : State) → agrees self.new w → stands self.old w s →
            asks self.old self.new w (record { state = s; call = Make ty; answered = is_ok result } ∷ []) };

    /// A copy of the value of a single-valued attribute of an entity.
    fn get(&mut self, alloc: Global, entity: EntityId, attribute: u16) -> Result<Value, BaseFault>
        ensures gives { (w : Witness) (s : State) → agrees self.new w → stands self.old w s → Admits s (Get entity attribute) →
            Gives (stands self.new w) s (Get entity attribute) (λ value. value ≡ value_at attribute entity s.triples) result }
        ensures memory { result ≡ Err Memory → spared self.old self.new }
        ensures own { IsOwn (Get entity attribute) result }
        ensures met { TellsMet (met self.old) (met self.new) (fault_behind result) }
        ensures follows { follows self.old self.new }
        ensures asks { (w : Witness) (s : State) → agrees self.new w → stands self.old w s → Admits s (Get entity attribute) →
            asks self.old self.new w (record { state = s; call = Get entity attribute; answered = is_ok result } ∷ []) }
        ensures reached { (w : Witness) (s : State) → agrees self.new w → stands self.old w s → Admits s (Get entity attribute) → Reaches (reached self.new w entity attribute) result };

    /// Sets a single-valued attribute of an entity; null where it is to have no value. Refused by rule 4 where another entity
    /// has the value of a unique attribute. The page of the value is got before anything is changed.
    fn set(
        &mut self,
        alloc: Global,
        entity: EntityId,
        attribute: u16,
        value: &Value,
    ) -> Result<(), BaseFault>
        ensures gives { (w : Witness) (s : State) → agrees self.new w → stands self.old w s → Admits s (Set entity attribute value.now) →
            Gives (stands self.new w) s (Set entity attribute value.now) (λ _. ⊤) result }
        ensures memory { result ≡ Err Memory → spared self.old self.new }
        ensures own { IsOwn (Set entity attribute value.now) result }
        ensures met { TellsMet (met self.old) (met self.new) (fault_behind result) }
        ensures follows { follows self.old self.new }
        ensures asks { (w : Witness) (s : State) → agrees self.new w → stands self.old w s → Admits s (Set entity attribute value.now) →
            asks self.old self.new w (record { state = s; call = Set entity attribute value.now; answered = is_ok result } ∷ []) }
        ensures reached { (w : Witness) (s : State) → agrees self.new w → stands self.old w s → Admits s (Set entity attribute value.now) → Reaches (reached self.new w entity attribute) result }
        ensures first { (w : Witness) (s : State) → agrees self.new w → stands self.old w s → Admits s (Set entity attribute value.now) →
            reached self.new w entity attribute ⊎ asks self.old self.new w (record { state = s; call = Get entity attribute; answered = is_ok result } ∷ []) };

    /// Copies of the values in the set of an attribute of an entity, in order.
    fn members(
        &mut self,
        alloc: Global,
        entity: EntityId,
        attribute: u16,
    ) -> Result<Values, BaseFault>
        ensures gives { (w : Witness) (s : State) → agrees self.new w → stands self.old w s → Admits s (Members entity attribute) →
            Gives (stands self.new w) s (Members entity attribute) (λ values. values ≡ values_at attribute entity s.triples) result }
        ensures memory { result ≡ Err Memory → spared self.old self.new }
        ensures own { IsOwn (Members entity attribute) result }
        ensures met { TellsMet (met self.old) (met self.new) (fault_behind result) }
        ensures follows { follows self.old self.new }
        ensures asks { (w : Witness) (s : State) → agrees self.new w → stands self.old w s → Admits s (Members entity attribute) →
            asks self.old self.new w (record { state = s; call = Members entity attribute; answered = is_ok result } ∷ []) };

    /// Puts a value into the set of an attribute of an entity. Whether it was not there before.
    fn add(
        &mut self,
        alloc: Global,
        entity: EntityId,
        attribute: u16,
        value: &Value,
    ) -> Result<bool, BaseFault>
        ensures gives { (w : Witness) (s : State) → agrees self.new w → stands self.old w s → Admits s (Add entity attribute value.now) →
            Gives (stands self.new w) s (Add entity attribute value.now) (λ changed. changed ≡ not (has_value s attribute entity value.now)) result }
        ensures memory { result ≡ Err Memory → spared self.old self.new }
        ensures own { IsOwn (Add entity attribute value.now) result }
        ensures met { TellsMet (met self.old) (met self.new) (fault_behind result) }
        ensures follows { follows self.old self.new }
        ensures asks { (w : Witness) (s : State) → agrees self.new w → stands self.old w s → Admits s (Add entity attribute value.now) →
            asks self.old self.new w (record { state = s; call = Add entity attribute value.now; answered = is_ok result } ∷ []) };

    /// Takes a value out of the set of an attribute of an entity. Whether it was there.
    fn take(
        &mut self,
        alloc: Global,
        entity: EntityId,
        attribute: u16,
        value: &Value,
    ) -> Result<bool, BaseFault>
        ensures gives { (w : Witness) (s : State) → agrees self.new w → stands self.old w s → Admits s (Take entity attribute value.now) →
            Gives (stands self.new w) s (Take entity attribute value.now) (λ changed. changed ≡ has_value s attribute entity value.now) result }
        ensures memory { result ≡ Err Memory → spared self.old self.new }
        ensures own { IsOwn (Take entity attribute value.now) result }
        ensures met { TellsMet (met self.old) (met self.new) (fault_behind result) }
        ensures follows { follows self.old self.new }
        ensures asks { (w : Witness) (s : State) → agrees self.new w → stands self.old w s → Admits s (Take entity attribute value.now) →
            asks self.old self.new w (record { state = s; call = Take entity attribute value.now; answered = is_ok result } ∷ []) };

    /// The entities whose attribute has a value, or has it in its set, in order.
    fn turned(
        &mut self,
        alloc: Global,
        attribute: u16,
        value: &Value,
    ) -> Result<Entities, BaseFault>
        requires { HasAttribute (schema self.old) attribute }
        ensures gives { (w : Witness) (s : State) → agrees self.new w → stands self.old w s → Admits s (Turned attribute value.now) →
            Gives (stands self.new w) s (Turned attribute value.now) (λ entities. entities ≡ turned attribute value.now s.triples) result }
        ensures memory { result ≡ Err Memory → spared self.old self.new }
        ensures own { IsOwn (Turned attribute value.now) result }
        ensures met { TellsMet (met self.old) (met self.new) (fault_behind result) }
        ensures follows { follows self.old self.new }
        ensures asks { (w : Witness) (s : State) → agrees self.new w → stands self.old w s → Admits s (Turned attribute value.now) →
            asks self.old self.new w (record { state = s; call = Turned attribute value.now; answered = is_ok result } ∷ []) };

    /// Deletes an entity, its values, and each reference to it. Refused by rule 6 where another entity refers to it by an
    /// attribute that admits no null.
    fn delete(&mut self, alloc: Global, entity: EntityId) -> Result<(), BaseFault>
        ensures gives { (w : Witness) (s : State) → agrees self.new w → stands self.old w s → Admits s (Delete entity) →
            Gives (stands self.new w) s (Delete entity) (λ _. ⊤) result }
        ensures memory { result ≡ Err Memory → spared self.old self.new }
        ensures own { IsOwn (Delete entity) result }
        ensures met { TellsMet (met self.old) (met self.new) (fault_behind result) }
        ensures follows { follows self.old self.new }
        ensures asks { (w : Witness) (s : State) → agrees self.new w → stands self.old w s → Admits s (Delete entity) →
            asks self.old self.new w (record { state = s; call = Delete entity; answered = is_ok result } ∷ []) };

    /// The live entities of a type, descendants included, in order.
    fn list(&mut self, alloc: Global, ty: u16) -> Result<Entities, BaseFault>
        requires { ty < length (schema self.old).names }
        ensures gives { (w : Witness) (s : State) → agrees self.new w → stands self.old w s →
            Gives (stands self.new w) s (Listed ty) (λ entities. entities ≡ entities_of s ty) result }
        ensures memory { result ≡ Err Memory → spared self.old self.new }
        ensures own { IsOwn (Listed ty) result }
        ensures met { TellsMet (met self.old) (met self.new) (fault_behind result) }
        ensures follows { follows self.old self.new }
        ensures asks { (w : Witness) (s : State) → agrees self.new w → stands self.old w s →
            asks self.old self.new w (record { state = s; call = Listed ty; answered = is_ok result } ∷ []) };

    ghost follows_itself: { (a : Self) → follows a a };

    ghost follows_on: { (a b c : Self) → follows a b → follows b c → follows a c };

    // What was seen stays seen.
    ghost seen_stays: { (a b : Self) (w : Witness) → follows a b → agrees b w → agrees a w };

    ghost schema_stays: { (a b : Self) → follows a b → schema b ≡ schema a };

    ghost stands_with_schema: { (a : Self) (w : Witness) (s : State) → stands a w s → s.schema ≡ schema a };

    ghost reached_stays: { (a b : Self) (w : Witness) (e : EntityId) (n : ℕ) → follows a b → reached a w e n → reached b w e n };

    ghost asks_nothing: { (a : Self) (w : Witness) → asks a a w [] };

    ghost asks_on: { (a b c : Self) (w : Witness) (first second : List Asked) → follows a b → follows b c → asks a b w first → asks b c w second → asks a c w (first ++ second) };
}
