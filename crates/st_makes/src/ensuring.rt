//! The statement that fills an entity, or makes it where there is none.
ghost use Rattle.std.specs.Prelude.{◌≡◌, ℕ, ◌<◌, List, Some, [], ◌∷◌, ◌++◌, flat_map, length, All};
ghost use Rattle.st_values.specs.declared.value.Value.{Value};
ghost use Rattle.st_values.specs.declared.value.Value.TheVariants.{Entity};
ghost use Rattle.st_query.specs.declared.statement.Statement.TheVariants.{Ensure};
ghost use Rattle.st_query.specs.Terms.{bind};
ghost use Rattle.st_state.specs.State.{State};
ghost use Rattle.st_state.specs.Legal.{IsNearlyLegal};
ghost use Rattle.st_state.specs.Calls.{HasAttribute};
ghost use Rattle.st_meaning.specs.Statements.{does, holder};
ghost use Rattle.st_meaning.specs.Rules.{refusal};
ghost use Rattle.st_terms.specs.Looks.{Changes, Keeps};
ghost use Rattle.st_terms.specs.Routes.{AdmitsTerm, term_stores};
ghost use Rattle.st_terms.specs.Checked.{present, IsChecked, touched};
ghost use Rattle.st_makes.specs.declared.given.Given.{Given};
ghost use Rattle.st_makes.specs.Makes.{givens_of, givens_set, IsMeant, found_stores, CanFill, fills_refused, fills_stores, CanEnsure, ensures_refused, ensured, ensured_entity, ensures_stores};

use crate::filling::given_fillings;
use crate::given::{Given, givens_of};
use crate::holders::holder;
use crate::making::{make_given, set_all};
use crate::refused::refused;
use st_lattice::{Attribute, Schema};
use st_plain::{Base, BaseFault};
use st_query::{Cell, Variable};
use st_state::Refusal;
use st_values::{EntityId, Value};
use std::alloc::Global;

/// Fills an entity of a type with what is given, or refuses it by the rules 8, 3 and 4 in this order.
fn fill<B: Base>(
    base: &mut B,
    alloc: Global,
    schema: &Schema,
    ty: u16,
    entity: EntityId,
    givens: &[Given],
) -> Result<EntityId, BaseFault>
    requires { schema.now ≡ B.schema base.old }
    ensures changes { (w : B.Witness) (s : State) → B.agrees base.new w → B.stands base.old w s → CanFill s ty entity givens.now →
        Changes (fills_refused s ty entity givens.now) (B.stands base.new w) (B.asks base.old base.new w) s (givens_set entity givens.now s) (λ filled. filled ≡ entity)
        (fills_stores s ty entity givens.now) result }
    ensures keeps { Keeps (B.follows base.old base.new) (B.met base.old) (B.met base.new) result }
{
    let fillings = given_fillings(alloc, schema, ty, givens)?;
    match refused(base, alloc, schema, Some(entity), fillings.as_slice())? {
        Some(refusal) => Err(BaseFault::Refused(refusal)),
        None => set_all(base, alloc, entity, givens),
    }
}

/// Fills the entity that was found, and makes one where none was.
fn fill_or_make<B: Base>(
    base: &mut B,
    alloc: Global,
    schema: &Schema,
    ty: u16,
    key: u16,
    others: &[Given],
    givens: &[Given],
    found: Option<EntityId>,
) -> Result<EntityId, BaseFault>
    requires schema { schema.now ≡ B.schema base.old }
    requires there { ty < length (B.schema base.old).names }
    ensures changes { (w : B.Witness) (s : State) → B.agrees base.new w → B.stands base.old w s → CanEnsure s ty key others.now givens.now found →
        Changes (ensures_refused s ty key others.now givens.now found) (B.stands base.new w) (B.asks base.old base.new w) s (ensured s ty others.now givens.now found)
        (λ filled. filled ≡ ensured_entity s ty found) (ensures_stores s ty key others.now givens.now found) result }
    ensures keeps { Keeps (B.follows base.old base.new) (B.met base.old) (B.met base.new) result }
{
    match found {
        Some(entity) => fill(base, alloc, schema, ty, entity, others),
        None => make_given(base, alloc, schema, ty, Some(key), givens),
    }
}

/// Looks for the entity that has the value of a key, and then fills or makes it.
fn ensure_with<B: Base>(
    base: &mut B,
    alloc: Global,
    schema: &Schema,
    ty: u16,
    key: &Attribute,
    value: &Value,
    others: &[Given],
    givens: &[Given],
) -> Result<EntityId, BaseFault>
    requires schema { schema.now ≡ B.schema base.old }
    requires there { ty < length (B.schema base.old).names }
    requires key { HasAttribute (B.schema base.old) key.now.number }
    ensures changes { (w : B.Witness) (s : State) → B.agrees base.new w → B.stands base.old w s → IsNearlyLegal s → IsMeant s key.now value.now →
        CanEnsure s ty key.now.number others.now givens.now (holder s ty (Some key.now) value.now) →
        Changes (ensures_refused s ty key.now.number others.now givens.now (holder s ty (Some key.now) value.now)) (B.stands base.new w) (B.asks base.old base.new w) s
        (ensured s ty others.now givens.now (holder s ty (Some key.now) value.now)) (λ filled. filled ≡ ensured_entity s ty (holder s ty (Some key.now) value.now))
        (found_stores s.schema key.now.number ++ ensures_stores s ty key.now.number others.now givens.now (holder s ty (Some key.now) value.now)) result }
    ensures keeps { Keeps (B.follows base.old base.new) (B.met base.old) (B.met base.new) result }
{
    let found = holder(base, alloc, schema, ty, key, value)?;
    fill_or_make(base, alloc, schema, ty, key.number, others, givens, found)
}

/// The same, where what is given to the key comes first.
fn ensure_given<B: Base>(
    base: &mut B,
    alloc: Global,
    schema: &Schema,
    ty: u16,
    key: &Attribute,
    givens: &[Given],
) -> Result<EntityId, BaseFault>
    requires schema { schema.now ≡ B.schema base.old }
    requires there { ty < length (B.schema base.old).names }
    requires key { HasAttribute (B.schema base.old) key.now.number }
    ensures changes { (w : B.Witness) (s : State) → B.agrees base.new w → B.stands base.old w s → (first : Value) (others : List Given) → givens.now ≡ record { number = key.now.number; many = key.now.many; value = first } ∷ others →
        IsNearlyLegal s → IsMeant s key.now first → CanEnsure s ty key.now.number others givens.now (holder s ty (Some key.now) first) →
        Changes (ensures_refused s ty key.now.number others givens.now (holder s ty (Some key.now) first)) (B.stands base.new w) (B.asks base.old base.new w) s
        (ensured s ty others givens.now (holder s ty (Some key.now) first)) (λ filled. filled ≡ ensured_entity s ty (holder s ty (Some key.now) first))
        (found_stores s.schema key.now.number ++ ensures_stores s ty key.now.number others givens.now (holder s ty (Some key.now) first)) result }
    ensures keeps { Keeps (B.follows base.old base.new) (B.met base.old) (B.met base.new) result }
{
    match givens {
        [] => Err(BaseFault::Refused(Refusal::WrongType)),
        [first, others @ ..] => {
            ensure_with(base, alloc, schema, ty, key, &first.value, others, givens)
        }
    }
}

/// The same with what cells give.
fn ensure_of<B: Base>(
    base: &mut B,
    alloc: Global,
    schema: &Schema,
    variables: &[Variable],
    ty: u16,
    key: &Attribute,
    cells: &[Cell],
) -> Result<EntityId, BaseFault>
    requires schema { schema.now ≡ B.schema base.old }
    requires there { ty < length (B.schema base.old).names }
    requires key { HasAttribute (B.schema base.old) key.now.number }
    ensures changes { (w : B.Witness) (s : State) → B.agrees base.new w → B.stands base.old w s → All (λ c. AdmitsTerm s variables.now c.value) cells.now → (first : Value) (others : List Given) →
        givens_of s variables.now ty cells.now ≡ record { number = key.now.number; many = key.now.many; value = first } ∷ others →
        IsNearlyLegal s → IsMeant s key.now first → CanEnsure s ty key.now.number others (givens_of s variables.now ty cells.now) (holder s ty (Some key.now) first) →
        Changes (ensures_refused s ty key.now.number others (givens_of s variables.now ty cells.now) (holder s ty (Some key.now) first)) (B.stands base.new w) (B.asks base.old base.new w) s
        (ensured s ty others (givens_of s variables.now ty cells.now) (holder s ty (Some key.now) first)) (λ filled. filled ≡ ensured_entity s ty (holder s ty (Some key.now) first))
        (flat_map (λ c. term_stores s.schema variables.now c.value) cells.now
        ++ (found_stores s.schema key.now.number ++ ensures_stores s ty key.now.number others (givens_of s variables.now ty cells.now) (holder s ty (Some key.now) first))) result }
    ensures keeps { Keeps (B.follows base.old base.new) (B.met base.old) (B.met base.new) result }
{
    let givens = givens_of(base, alloc, schema, variables, ty, cells)?;
    ensure_given(base, alloc, schema, ty, key, givens.as_slice())
}

/// Runs an `ensure` that was checked: the entity of a type that has the value of the first cell gets the values of the others,
/// and where there is none, one is made with all; or a refusal. Over a base with that schema.
pub fn ensure<B: Base>(
    base: &mut B,
    alloc: Global,
    schema: &Schema,
    variables: &[Variable],
    ty: &[u8],
    cells: &[Cell],
) -> Result<EntityId, BaseFault>
    requires { schema.now ≡ B.schema base.old }
    ensures changes { (w : B.Witness) (s : State) → B.agrees base.new w → B.stands base.old w s → (var : List ℕ) →
        IsChecked (present s variables.now) (Ensure var ty.now cells.now) →
        Changes (refusal (present s variables.now) (Ensure var ty.now cells.now)) (B.stands base.new w) (B.asks base.old base.new w) s
        (does (present s variables.now) (Ensure var ty.now cells.now)).state
        (λ made. (does (present s variables.now) (Ensure var ty.now cells.now)).variables ≡ bind var (Entity made) variables.now)
        (touched s.schema variables.now (Ensure var ty.now cells.now)) result }
    ensures keeps { Keeps (B.follows base.old base.new) (B.met base.old) (B.met base.new) result }
{
    match (schema.type_named(ty), cells) {
        (Some(ty), [key, ..]) => match schema.attribute_of(ty, key.name.as_slice()) {
            Some(key) => ensure_of(base, alloc, schema, variables, ty, key, cells),
            None => Err(BaseFault::Refused(Refusal::WrongType)),
        },
        _ => Err(BaseFault::Refused(Refusal::WrongType)),
    }
}
