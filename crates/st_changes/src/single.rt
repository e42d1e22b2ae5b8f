//! `set`.
ghost use Rattle.std.specs.Prelude.{◌≡◌, ◌⊎◌, ◌∷◌, [], All, None, OnOk, false, ⊤};
ghost use Rattle.st_lattice.specs.Called.{called, called_copied};
ghost use Rattle.st_query.specs.declared.statement.Statement.TheVariants.{Set as SetTo};
ghost use Rattle.st_state.specs.State.{State};
ghost use Rattle.st_state.specs.Refusals.{first_of};
ghost use Rattle.st_state.specs.Calls.{Get, Set, Admits, due, after, call_stores};
ghost use Rattle.st_meaning.specs.Statements.{does, value_now};
ghost use Rattle.st_meaning.specs.Rules.{refusal};
ghost use Rattle.st_plain.specs.Base.{Reaches};
ghost use Rattle.st_terms.specs.Looks.{AskedAt, Changes, Keeps};
ghost use Rattle.st_terms.specs.Checked.{present, IsChecked, touched, set_place, places_of};
ghost use Rattle.st_changes.specs.Effects.{set_rules, set_call, get_call, AdmitsCall, due_by, left_by, stores_of_call, SetsAt};

use crate::rules::can_set;
use crate::values::operands;
use st_lattice::{Attribute, Called, Schema};
use st_plain::{Base, BaseFault};
use st_query::{Term, Variable};
use st_values::{EntityId, Letters, Value};
use std::alloc::Global;

fn set_at<B: Base>(
    base: &mut B,
    alloc: Global,
    entity: EntityId,
    number: u16,
    value: &Value,
) -> Result<(), BaseFault>
    ensures changes { (w : B.Witness) (s : State) → B.agrees base.new w → B.stands base.old w s → Admits s (Set entity number value.now) →
        Changes (due s (Set entity number value.now)) (B.stands base.new w) (B.asks base.old base.new w) s (after s (Set entity number value.now)) (λ _. ⊤)
        (call_stores s.schema (Set entity number value.now)) result }
    ensures reached { (w : B.Witness) (s : State) → B.agrees base.new w → B.stands base.old w s → Admits s (Set entity number value.now) →
        Reaches (B.reached base.new w entity number) result }
    ensures first { (w : B.Witness) (s : State) → B.agrees base.new w → B.stands base.old w s → Admits s (Set entity number value.now) →
        B.reached base.new w entity number ⊎ AskedAt (B.asks base.old base.new w) false (call_stores s.schema (Get entity number)) }
    ensures sets { (w : B.Witness) (s : State) → B.agrees base.new w → B.stands base.old w s → Admits s (Set entity number value.now) →
        OnOk result (SetsAt (B.asks base.old base.new w) s (record { entity = entity; number = number })) }
    ensures keeps { Keeps (B.follows base.old base.new) (B.met base.old) (B.met base.new) result }
{
    base.set(alloc, entity, number, value)
}

fn set_value<B: Base>(
    base: &mut B,
    alloc: Global,
    called: Called<&Attribute>,
    target: &Value,
    value: &Value,
) -> Result<(), BaseFault>
    ensures changes { let call = set_call (called_copied called.entry) target.now value.now in
        (w : B.Witness) (s : State) → B.agrees base.new w → B.stands base.old w s → AdmitsCall s call →
        Changes (due_by s call) (B.stands base.new w) (B.asks base.old base.new w) s (left_by s call) (λ _. ⊤) (stores_of_call s.schema call) result }
    ensures reached { (w : B.Witness) (s : State) → B.agrees base.new w → B.stands base.old w s → AdmitsCall s (set_call (called_copied called.entry) target.now value.now) →
        Reaches (All (λ place. B.reached base.new w place.entity place.number) (set_place (called_copied called.entry) target.now)) result }
    ensures first { (w : B.Witness) (s : State) → B.agrees base.new w → B.stands base.old w s → AdmitsCall s (set_call (called_copied called.entry) target.now value.now) →
        All (λ place. B.reached base.new w place.entity place.number) (set_place (called_copied called.entry) target.now)
        ⊎ AskedAt (B.asks base.old base.new w) false (stores_of_call s.schema (get_call (called_copied called.entry) target.now)) }
    ensures sets { (w : B.Witness) (s : State) → B.agrees base.new w → B.stands base.old w s → AdmitsCall s (set_call (called_copied called.entry) target.now value.now) →
        OnOk result (All (SetsAt (B.asks base.old base.new w) s) (set_place (called_copied called.entry) target.now)) }
    ensures keeps { Keeps (B.follows base.old base.new) (B.met base.old) (B.met base.new) result }
{
    match (called, target) {
        (Called::Own(attribute), Value::Entity(entity)) => {
            set_at(base, alloc, *entity, attribute.number, value)
        }
        _ => Ok(()),
    }
}

/// A set to a value that was found: the rules that need no base, and then the call.
fn set_given<B: Base>(
    base: &mut B,
    alloc: Global,
    schema: &Schema,
    called: Called<&Attribute>,
    target: &Value,
    value: &Value,
) -> Result<(), BaseFault>
    ensures changes { let call = set_call (called_copied called.entry) target.now value.now in
        let due = first_of (set_rules schema.now (called_copied called.entry) target.now value.now) in
        (w : B.Witness) (s : State) → B.agrees base.new w → B.stands base.old w s → (due ≡ None → AdmitsCall s call) →
        Changes (first_of (due ∷ due_by s call ∷ [])) (B.stands base.new w) (B.asks base.old base.new w) s (left_by s call) (λ _. ⊤) (stores_of_call s.schema call) result }
    ensures reached { let due = first_of (set_rules schema.now (called_copied called.entry) target.now value.now) in
        (w : B.Witness) (s : State) → B.agrees base.new w → B.stands base.old w s → (due ≡ None → AdmitsCall s (set_call (called_copied called.entry) target.now value.now)) →
        Reaches (All (λ place. B.reached base.new w place.entity place.number) (set_place (called_copied called.entry) target.now)) result }
    ensures first { let due = first_of (set_rules schema.now (called_copied called.entry) target.now value.now) in
        (w : B.Witness) (s : State) → B.agrees base.new w → B.stands base.old w s → (due ≡ None → AdmitsCall s (set_call (called_copied called.entry) target.now value.now)) →
        All (λ place. B.reached base.new w place.entity place.number) (set_place (called_copied called.entry) target.now)
        ⊎ AskedAt (B.asks base.old base.new w) false (stores_of_call s.schema (get_call (called_copied called.entry) target.now)) }
    ensures sets { let due = first_of (set_rules schema.now (called_copied called.entry) target.now value.now) in
        (w : B.Witness) (s : State) → B.agrees base.new w → B.stands base.old w s → (due ≡ None → AdmitsCall s (set_call (called_copied called.entry) target.now value.now)) →
        OnOk result (All (SetsAt (B.asks base.old base.new w) s) (set_place (called_copied called.entry) target.now)) }
    ensures keeps { Keeps (B.follows base.old base.new) (B.met base.old) (B.met base.new) result }
{
    can_set(alloc, schema, called, target, value)?;
    set_value(base, alloc, called, target, value)
}

/// `set`, once it was checked: sets a single-valued attribute of an entity, or makes it null. Nothing is changed where the
/// target is null (rule 11), a text is too long (rule 8), the attribute admits no null (rule 3), or another entity has the
/// value of a unique attribute (rule 4). The page of the value is got before anything is changed.
pub fn set<B: Base>(
    base: &mut B,
    alloc: Global,
    schema: &Schema,
    variables: &[Variable],
    attribute: &Letters,
    target: &Term,
    value: &Term,
) -> Result<(), BaseFault>
    requires { schema.now ≡ B.schema base.old }
    ensures changes { (w : B.Witness) (s : State) → B.agrees base.new w → B.stands base.old w s → IsChecked (present s variables.now) (SetTo attribute.now target.now value.now) →
        Changes (refusal (present s variables.now) (SetTo attribute.now target.now value.now)) (B.stands base.new w) (B.asks base.old base.new w)
        s (does (present s variables.now) (SetTo attribute.now target.now value.now)).state (λ _. ⊤)
        (touched s.schema variables.now (SetTo attribute.now target.now value.now)) result }
    ensures reached { (w : B.Witness) (s : State) → B.agrees base.new w → B.stands base.old w s → IsChecked (present s variables.now) (SetTo attribute.now target.now value.now) →
        Reaches (All (λ place. B.reached base.new w place.entity place.number) (places_of (present s variables.now) (SetTo attribute.now target.now value.now))) result }
    ensures first { (w : B.Witness) (s : State) → B.agrees base.new w → B.stands base.old w s → IsChecked (present s variables.now) (SetTo attribute.now target.now value.now) →
        All (λ place. B.reached base.new w place.entity place.number) (set_place (called s.schema attribute.now) (value_now (present s variables.now) target.now))
        ⊎ AskedAt (B.asks base.old base.new w) false (touched s.schema variables.now (SetTo attribute.now target.now value.now)) }
    ensures sets { (w : B.Witness) (s : State) → B.agrees base.new w → B.stands base.old w s → IsChecked (present s variables.now) (SetTo attribute.now target.now value.now) →
        OnOk result (All (SetsAt (B.asks base.old base.new w) s) (set_place (called s.schema attribute.now) (value_now (present s variables.now) target.now))) }
    ensures keeps { Keeps (B.follows base.old base.new) (B.met base.old) (B.met base.new) result }
{
    let given = operands(base, alloc, schema, variables, target, value)?;
    let called = schema.called(attribute.as_slice());
    set_given(base, alloc, schema, called, &given.target, &given.value)
}
