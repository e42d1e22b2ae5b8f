//! What runs over any base, in one form over lists and over a base that has not read its store yet.
ghost use Rattle.std.specs.Prelude.{◌≡◌, ◌<◌, length, IfOk, OnOk, IsTrue};
ghost use Rattle.st_state.specs.State.{State, is_live, next_entity, entity_made, value_at};
ghost use Rattle.st_state.specs.Calls.{Get, Set, Admits};
ghost use Rattle.st_late.specs.Bases.{value_if_live, made_with};

use st_plain::{Base, BaseFault};
use st_values::{EntityId, Value};
use std::alloc::Global;

/// The value of an attribute of an entity, where that one is live. On an error of the base nothing is said.
pub fn value_if_live<B: Base>(
    base: &mut B,
    alloc: Global,
    entity: EntityId,
    number: u16,
) -> Result<Option<Value>, BaseFault>
    ensures leaves { (w : B.Witness) (s : State) → B.agrees base.new w → B.stands base.old w s →
        (IsTrue (is_live s entity) → Admits s (Get entity number)) →
        OnOk result (B.stands base.new w s) }
    ensures value { (w : B.Witness) (s : State) → B.agrees base.new w → B.stands base.old w s →
        (IsTrue (is_live s entity) → Admits s (Get entity number)) →
        IfOk result (λ found. found ≡ value_if_live s entity number) }
{
    if base.live(alloc, entity)? {
        Ok(Some(base.get(alloc, entity, number)?))
    } else {
        Ok(None)
    }
}

/// Makes an entity with a value, and gets the value. On an error of the base nothing is said.
pub fn made_with<B: Base>(
    base: &mut B,
    alloc: Global,
    ty: u16,
    number: u16,
    value: &Value,
) -> Result<Value, BaseFault>
    requires { ty < length (B.schema base.old).names }
    ensures leaves { (w : B.Witness) (s : State) → B.agrees base.new w → B.stands base.old w s →
        Admits (entity_made s ty) (Set (next_entity s ty) number value.now) →
        OnOk result (B.stands base.new w (made_with s ty number value.now)) }
    ensures value { (w : B.Witness) (s : State) → B.agrees base.new w → B.stands base.old w s →
        Admits (entity_made s ty) (Set (next_entity s ty) number value.now) →
        IfOk result (λ got. got ≡ value_at number (next_entity s ty) (made_with s ty number value.now).triples) }
{
    let entity = base.make(alloc, ty)?;
    base.set(alloc, entity, number, value)?;
    base.get(alloc, entity, number)
}
