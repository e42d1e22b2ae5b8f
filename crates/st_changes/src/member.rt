//! `add-to-set` and `delete-from-set`.
ghost use Rattle.std.specs.Prelude.{◌≡◌, ◌++◌, ◌∷◌, [], find, None, ⊤};
ghost use Rattle.st_lattice.specs.Called.{called_copied};
ghost use Rattle.st_query.specs.declared.statement.Statement.TheVariants.{Add as AddTo, Take as TakeFrom};
ghost use Rattle.st_state.specs.State.{State, turned};
ghost use Rattle.st_state.specs.Refusals.{first_of};
ghost use Rattle.st_state.specs.Bases.{is_other, not_unique};
ghost use Rattle.st_state.specs.Calls.{Add, Take, Turned, HasAttribute, Admits, due, after, call_stores};
ghost use Rattle.st_meaning.specs.Statements.{does};
ghost use Rattle.st_meaning.specs.Rules.{refusal, too_long};
ghost use Rattle.st_terms.specs.Looks.{Looks, Changes, Keeps};
ghost use Rattle.st_terms.specs.Checked.{present, IsChecked, touched};
ghost use Rattle.st_changes.specs.Effects.{add_rules, add_call, add_due, take_rules, take_unless, take_call, take_due_unless, take_due, IsThere, AdmitsCall, left_by, member_stores};

use crate::rules::{can_add, can_take, not_held, too_long};
use crate::values::operands;
use st_lattice::{Attribute, Called, Schema};
use st_plain::{Base, BaseFault};
use st_query::{Term, Variable};
use st_values::{EntityId, Letters, Value};
use std::alloc::Global;

#[tactic(auto, using(crate::proofs::Holders::first_found))]
fn first(entities: &[EntityId]) -> Option<EntityId>
    ensures { result ≡ find (is_other None) entities.now }
{
    entities.first().copied()
}

fn first_holder<B: Base>(
    base: &mut B,
    alloc: Global,
    number: u16,
    value: &Value,
) -> Result<Option<EntityId>, BaseFault>
    requires { HasAttribute (B.schema base.old) number }
    ensures looks { (w : B.Witness) (s : State) → B.agrees base.new w → B.stands base.old w s → Admits s (Turned number value.now) →
        Looks (B.stands base.new w s) (B.asks base.old base.new w) (B.reached base.new w) (λ holder. holder ≡ find (is_other None) (turned number value.now s.triples))
        (call_stores s.schema (Turned number value.now)) [] result }
    ensures keeps { Keeps (B.follows base.old base.new) (B.met base.old) (B.met base.new) result }
{
    let holders = base.turned(alloc, number, value)?;
    Ok(first(holders.as_slice()))
}

/// Rule 4 of a value that goes into a set or out of it: no entity may have a value of a unique attribute. A schema that was
/// read has no such set.
fn unshared<B: Base>(
    base: &mut B,
    alloc: Global,
    schema: &Schema,
    attribute: &Attribute,
    value: &Value,
) -> Result<(), BaseFault>
    requires same { schema.now ≡ B.schema base.old }
    requires there { HasAttribute (B.schema base.old) attribute.now.number }
    ensures changes { (w : B.Witness) (s : State) → B.agrees base.new w → B.stands base.old w s → Admits s (Turned attribute.now.number value.now) →
        Changes (not_unique s attribute.now None value.now) (B.stands base.new w) (B.asks base.old base.new w) s s (λ _. ⊤) (call_stores s.schema (Turned attribute.now.number value.now)) result }
    ensures keeps { Keeps (B.follows base.old base.new) (B.met base.old) (B.met base.new) result }
{
    if !attribute.unique {
        return Ok(());
    }
    let holder = first_holder(base, alloc, attribute.number, value)?;
    not_held(alloc, schema, attribute, holder)
}

fn add_at<B: Base>(
    base: &mut B,
    alloc: Global,
    entity: EntityId,
    number: u16,
    value: &Value,
) -> Result<(), BaseFault>
    ensures changes { (w : B.Witness) (s : State) → B.agrees base.new w → B.stands base.old w s → Admits s (Add entity number value.now) →
        Changes (due s (Add entity number value.now)) (B.stands base.new w) (B.asks base.old base.new w) s (after s (Add entity number value.now)) (λ _. ⊤)
        (call_stores s.schema (Add entity number value.now)) result }
    ensures keeps { Keeps (B.follows base.old base.new) (B.met base.old) (B.met base.new) result }
{
    let _added = base.add(alloc, entity, number, value)?;
    Ok(())
}

fn add_own<B: Base>(
    base: &mut B,
    alloc: Global,
    schema: &Schema,
    attribute: &Attribute,
    entity: EntityId,
    value: &Value,
) -> Result<(), BaseFault>
    requires same { schema.now ≡ B.schema base.old }
    requires there { HasAttribute (B.schema base.old) attribute.now.number }
    ensures changes { (w : B.Witness) (s : State) → B.agrees base.new w → B.stands base.old w s → Admits s (Add entity attribute.now.number value.now) →
        Changes (not_unique s attribute.now None value.now) (B.stands base.new w) (B.asks base.old base.new w) s (after s (Add entity attribute.now.number value.now)) (λ _. ⊤)
        (call_stores s.schema (Turned attribute.now.number value.now) ++ call_stores s.schema (Add entity attribute.now.number value.now)) result }
    ensures keeps { Keeps (B.follows base.old base.new) (B.met base.old) (B.met base.new) result }
{
    unshared(base, alloc, schema, attribute, value)?;
    add_at(base, alloc, entity, attribute.number, value)
}

fn add_value<B: Base>(
    base: &mut B,
    alloc: Global,
    schema: &Schema,
    called: Called<&Attribute>,
    target: &Value,
    value: &Value,
) -> Result<(), BaseFault>
    requires same { schema.now ≡ B.schema base.old }
    requires there { IsThere (B.schema base.old) (called_copied called) }
    ensures changes { let call = add_call (called_copied called.entry) target.now value.now in
        (w : B.Witness) (s : State) → B.agrees base.new w → B.stands base.old w s → AdmitsCall s call →
        Changes (add_due s (called_copied called.entry) target.now value.now) (B.stands base.new w) (B.asks base.old base.new w) s (left_by s call) (λ _. ⊤) (member_stores s.schema call) result }
    ensures keeps { Keeps (B.follows base.old base.new) (B.met base.old) (B.met base.new) result }
{
    match (called, target) {
        (Called::Own(attribute), Value::Entity(entity)) => {
            add_own(base, alloc, schema, attribute, *entity, value)
        }
        _ => Ok(()),
    }
}

/// A value that was found, put into a set: the rules that need no base, and then the call.
fn add_given<B: Base>(
    base: &mut B,
    alloc: Global,
    schema: &Schema,
    called: Called<&Attribute>,
    target: &Value,
    value: &Value,
) -> Result<(), BaseFault>
    requires same { schema.now ≡ B.schema base.old }
    requires there { IsThere (B.schema base.old) (called_copied called) }
    ensures changes { let call = add_call (called_copied called.entry) target.now value.now in
        let rule = first_of (add_rules schema.now (called_copied called.entry) target.now value.now) in
        (w : B.Witness) (s : State) → B.agrees base.new w → B.stands base.old w s → (rule ≡ None → AdmitsCall s call) →
        Changes (first_of (rule ∷ add_due s (called_copied called.entry) target.now value.now ∷ [])) (B.stands base.new w) (B.asks base.old base.new w)
        s (left_by s call) (λ _. ⊤) (member_stores s.schema call) result }
    ensures keeps { Keeps (B.follows base.old base.new) (B.met base.old) (B.met base.new) result }
{
    can_add(alloc, schema, called, target, value)?;
    add_value(base, alloc, schema, called, target, value)
}

/// `add-to-set`, once it was checked: puts a value into the set of an attribute of an entity. Nothing is changed where the
/// target is null (rule 11), a text is too long (rule 8), the value is null (rule 3), or an entity has it already where no two
/// may (rule 4).
#[tactic(auto, using(crate::proofs::Holders::called_there))]
pub fn add<B: Base>(
    base: &mut B,
    alloc: Global,
    schema: &Schema,
    variables: &[Variable],
    attribute: &Letters,
    target: &Term,
    value: &Term,
) -> Result<(), BaseFault>
    requires { schema.now ≡ B.schema base.old }
    ensures changes { (w : B.Witness) (s : State) → B.agrees base.new w → B.stands base.old w s → IsChecked (present s variables.now) (AddTo attribute.now target.now value.now) →
        Changes (refusal (present s variables.now) (AddTo attribute.now target.now value.now)) (B.stands base.new w) (B.asks base.old base.new w)
        s (does (present s variables.now) (AddTo attribute.now target.now value.now)).state (λ _. ⊤)
        (touched s.schema variables.now (AddTo attribute.now target.now value.now)) result }
    ensures keeps { Keeps (B.follows base.old base.new) (B.met base.old) (B.met base.new) result }
{
    let given = operands(base, alloc, schema, variables, target, value)?;
    let called = schema.called(attribute.as_slice());
    add_given(base, alloc, schema, called, &given.target, &given.value)
}

fn take_at<B: Base>(
    base: &mut B,
    alloc: Global,
    entity: EntityId,
    number: u16,
    value: &Value,
) -> Result<(), BaseFault>
    ensures changes { (w : B.Witness) (s : State) → B.agrees base.new w → B.stands base.old w s → Admits s (Take entity number value.now) →
        Changes (due s (Take entity number value.now)) (B.stands base.new w) (B.asks base.old base.new w) s (after s (Take entity number value.now)) (λ _. ⊤)
        (call_stores s.schema (Take entity number value.now)) result }
    ensures keeps { Keeps (B.follows base.old base.new) (B.met base.old) (B.met base.new) result }
{
    let _taken = base.take(alloc, entity, number, value)?;
    Ok(())
}

fn take_own<B: Base>(
    base: &mut B,
    alloc: Global,
    schema: &Schema,
    attribute: &Attribute,
    entity: EntityId,
    value: &Value,
) -> Result<(), BaseFault>
    requires same { schema.now ≡ B.schema base.old }
    requires there { HasAttribute (B.schema base.old) attribute.now.number }
    ensures changes { (w : B.Witness) (s : State) → B.agrees base.new w → B.stands base.old w s → Admits s (Take entity attribute.now.number value.now) →
        Changes (not_unique s attribute.now None value.now) (B.stands base.new w) (B.asks base.old base.new w) s (after s (Take entity attribute.now.number value.now)) (λ _. ⊤)
        (call_stores s.schema (Turned attribute.now.number value.now) ++ call_stores s.schema (Take entity attribute.now.number value.now)) result }
    ensures keeps { Keeps (B.follows base.old base.new) (B.met base.old) (B.met base.new) result }
{
    unshared(base, alloc, schema, attribute, value)?;
    take_at(base, alloc, entity, attribute.number, value)
}

/// A text that is too long is in no set, so that nothing is called for it.
fn take_short<B: Base>(
    base: &mut B,
    alloc: Global,
    schema: &Schema,
    attribute: &Attribute,
    entity: EntityId,
    value: &Value,
) -> Result<(), BaseFault>
    requires same { schema.now ≡ B.schema base.old }
    requires there { HasAttribute (B.schema base.old) attribute.now.number }
    ensures changes { let long = too_long attribute.now.kind value.now in
        let call = take_unless attribute.now entity value.now long in
        (w : B.Witness) (s : State) → B.agrees base.new w → B.stands base.old w s → AdmitsCall s call →
        Changes (take_due_unless s attribute.now value.now long) (B.stands base.new w) (B.asks base.old base.new w) s (left_by s call) (λ _. ⊤) (member_stores s.schema call) result }
    ensures keeps { Keeps (B.follows base.old base.new) (B.met base.old) (B.met base.new) result }
{
    match too_long(attribute.kind, value) {
        None => take_own(base, alloc, schema, attribute, entity, value),
        Some(_) => Ok(()),
    }
}

fn take_value<B: Base>(
    base: &mut B,
    alloc: Global,
    schema: &Schema,
    called: Called<&Attribute>,
    target: &Value,
    value: &Value,
) -> Result<(), BaseFault>
    requires same { schema.now ≡ B.schema base.old }
    requires there { IsThere (B.schema base.old) (called_copied called) }
    ensures changes { let call = take_call (called_copied called.entry) target.now value.now in
        (w : B.Witness) (s : State) → B.agrees base.new w → B.stands base.old w s → AdmitsCall s call →
        Changes (take_due s (called_copied called.entry) target.now value.now) (B.stands base.new w) (B.asks base.old base.new w) s (left_by s call) (λ _. ⊤) (member_stores s.schema call) result }
    ensures keeps { Keeps (B.follows base.old base.new) (B.met base.old) (B.met base.new) result }
{
    match (called, target) {
        (Called::Own(attribute), Value::Entity(entity)) => {
            take_short(base, alloc, schema, attribute, *entity, value)
        }
        _ => Ok(()),
    }
}

/// A value that was found, taken out of a set: the rules that need no base, and then the call.
fn take_given<B: Base>(
    base: &mut B,
    alloc: Global,
    schema: &Schema,
    called: Called<&Attribute>,
    target: &Value,
    value: &Value,
) -> Result<(), BaseFault>
    requires same { schema.now ≡ B.schema base.old }
    requires there { IsThere (B.schema base.old) (called_copied called) }
    ensures changes { let call = take_call (called_copied called.entry) target.now value.now in
        let rule = first_of (take_rules schema.now (called_copied called.entry) target.now value.now) in
        (w : B.Witness) (s : State) → B.agrees base.new w → B.stands base.old w s → (rule ≡ None → AdmitsCall s call) →
        Changes (first_of (rule ∷ take_due s (called_copied called.entry) target.now value.now ∷ [])) (B.stands base.new w) (B.asks base.old base.new w)
        s (left_by s call) (λ _. ⊤) (member_stores s.schema call) result }
    ensures keeps { Keeps (B.follows base.old base.new) (B.met base.old) (B.met base.new) result }
{
    can_take(alloc, schema, called, target, value)?;
    take_value(base, alloc, schema, called, target, value)
}

/// `delete-from-set`, once it was checked: takes a value out of the set of an attribute of an entity. Nothing is changed
/// where the target is null (rule 11) or the value is (rule 3), nor where an entity has the value and no two may (rule 4). A
/// text that is too long is in no set, and is no error.
#[tactic(auto, using(crate::proofs::Holders::called_there))]
pub fn take<B: Base>(
    base: &mut B,
    alloc: Global,
    schema: &Schema,
    variables: &[Variable],
    attribute: &Letters,
    target: &Term,
    value: &Term,
) -> Result<(), BaseFault>
    requires { schema.now ≡ B.schema base.old }
    ensures changes { (w : B.Witness) (s : State) → B.agrees base.new w → B.stands base.old w s → IsChecked (present s variables.now) (TakeFrom attribute.now target.now value.now) →
        Changes (refusal (present s variables.now) (TakeFrom attribute.now target.now value.now)) (B.stands base.new w) (B.asks base.old base.new w)
        s (does (present s variables.now) (TakeFrom attribute.now target.now value.now)).state (λ _. ⊤)
        (touched s.schema variables.now (TakeFrom attribute.now target.now value.now)) result }
    ensures keeps { Keeps (B.follows base.old base.new) (B.met base.old) (B.met base.new) result }
{
    let given = operands(base, alloc, schema, variables, target, value)?;
    let called = schema.called(attribute.as_slice());
    take_given(base, alloc, schema, called, &given.target, &given.value)
}
