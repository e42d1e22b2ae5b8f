//! The statement that makes an entity, and how an entity gets its values.
ghost use Rattle.std.specs.Prelude.{◌≡◌, ℕ, ◌<◌, List, None, [], ◌∷◌, ◌++◌, flat_map, length, All, ⊤};
ghost use Rattle.st_values.specs.declared.value.Value.TheVariants.{Entity};
ghost use Rattle.st_lattice.specs.declared.stores.StoreKind.TheVariants.{Extent};
ghost use Rattle.st_lattice.specs.Stores.{store};
ghost use Rattle.st_query.specs.declared.statement.Statement.TheVariants.{Make};
ghost use Rattle.st_query.specs.Terms.{bind};
ghost use Rattle.st_state.specs.State.{State, next_entity, entity_made, attribute_set, member_added};
ghost use Rattle.st_state.specs.Bases.{spent};
ghost use Rattle.st_state.specs.Calls.{Set, Add, Admits, due, changed_stores};
ghost use Rattle.st_meaning.specs.Statements.{does};
ghost use Rattle.st_meaning.specs.Rules.{refusal};
ghost use Rattle.st_terms.specs.Looks.{Changes, Keeps};
ghost use Rattle.st_terms.specs.Routes.{AdmitsTerm, term_stores};
ghost use Rattle.st_terms.specs.Checked.{present, IsChecked, touched};
ghost use Rattle.st_makes.specs.Makes.{givens_of, givens_set, AdmitsValue, AdmitsGivens, givens_stores, CanMake, makes_refused, makes_stores};

use crate::filling::new_fillings;
use crate::given::{Given, givens_of};
use crate::refused::refused;
use st_lattice::Schema;
use st_plain::{Base, BaseFault};
use st_query::{Cell, Variable};
use st_state::Refusal;
use st_values::{EntityId, Value};
use std::alloc::Global;

fn set_value<B: Base>(
    base: &mut B,
    alloc: Global,
    entity: EntityId,
    number: u16,
    value: &Value,
) -> Result<(), BaseFault>
    ensures changes { (w : B.Witness) (s : State) → B.agrees base.new w → B.stands base.old w s →
        Admits s (Set entity number value.now) → due s (Set entity number value.now) ≡ None →
        Changes None (B.stands base.new w) (B.asks base.old base.new w) s (attribute_set s number entity value.now) (λ _. ⊤) (changed_stores s.schema entity number) result }
    ensures keeps { Keeps (B.follows base.old base.new) (B.met base.old) (B.met base.new) result }
{
    base.set(alloc, entity, number, value)
}

fn add_value<B: Base>(
    base: &mut B,
    alloc: Global,
    entity: EntityId,
    number: u16,
    value: &Value,
) -> Result<(), BaseFault>
    ensures changes { (w : B.Witness) (s : State) → B.agrees base.new w → B.stands base.old w s → Admits s (Add entity number value.now) →
        Changes None (B.stands base.new w) (B.asks base.old base.new w) s (member_added s number entity value.now) (λ _. ⊤) (changed_stores s.schema entity number) result }
    ensures keeps { Keeps (B.follows base.old base.new) (B.met base.old) (B.met base.new) result }
{
    let _added = base.add(alloc, entity, number, value)?;
    Ok(())
}

/// Puts one value into an entity. An attribute with sets, which only a key can be, has none yet.
fn set_given<B: Base>(
    base: &mut B,
    alloc: Global,
    entity: EntityId,
    given: &Given,
) -> Result<(), BaseFault>
    ensures changes { (w : B.Witness) (s : State) → B.agrees base.new w → B.stands base.old w s → AdmitsValue given.now.many s entity given.now.number given.now.value →
        Changes None (B.stands base.new w) (B.asks base.old base.new w) s (attribute_set s given.now.number entity given.now.value) (λ _. ⊤)
        (changed_stores s.schema entity given.now.number) result }
    ensures keeps { Keeps (B.follows base.old base.new) (B.met base.old) (B.met base.new) result }
{
    if given.many {
        add_value(base, alloc, entity, given.number, &given.value)
    } else {
        set_value(base, alloc, entity, given.number, &given.value)
    }
}

/// Puts what is given into an entity, where no rule refuses it any more.
pub(crate) fn set_givens<B: Base>(
    base: &mut B,
    alloc: Global,
    entity: EntityId,
    givens: &[Given],
) -> Result<(), BaseFault>
    ensures changes { (w : B.Witness) (s : State) → B.agrees base.new w → B.stands base.old w s → AdmitsGivens entity givens.now s →
        Changes None (B.stands base.new w) (B.asks base.old base.new w) s (givens_set entity givens.now s) (λ _. ⊤) (givens_stores s.schema entity givens.now) result }
    ensures keeps { Keeps (B.follows base.old base.new) (B.met base.old) (B.met base.new) result }
{
    for given in givens {
        set_given(base, alloc, entity, given)?;
    }
    Ok(())
}

/// The same, and the entity.
pub(crate) fn set_all<B: Base>(
    base: &mut B,
    alloc: Global,
    entity: EntityId,
    givens: &[Given],
) -> Result<EntityId, BaseFault>
    ensures changes { (w : B.Witness) (s : State) → B.agrees base.new w → B.stands base.old w s → AdmitsGivens entity givens.now s →
        Changes None (B.stands base.new w) (B.asks base.old base.new w) s (givens_set entity givens.now s) (λ filled. filled ≡ entity) (givens_stores s.schema entity givens.now) result }
    ensures keeps { Keeps (B.follows base.old base.new) (B.met base.old) (B.met base.new) result }
{
    set_givens(base, alloc, entity, givens)?;
    Ok(entity)
}

fn make_entity<B: Base>(base: &mut B, alloc: Global, ty: u16) -> Result<EntityId, BaseFault>
    requires { ty < length (B.schema base.old).names }
    ensures changes { (w : B.Witness) (s : State) → B.agrees base.new w → B.stands base.old w s →
        Changes (spent s ty) (B.stands base.new w) (B.asks base.old base.new w) s (entity_made s ty) (λ made. made ≡ next_entity s ty) (store Extent ty ∷ []) result }
    ensures keeps { Keeps (B.follows base.old base.new) (B.met base.old) (B.met base.new) result }
{
    base.make(alloc, ty)
}

/// Makes an entity of a type with what is given, where no rule but the one on serials refuses it any more.
fn make_filled<B: Base>(
    base: &mut B,
    alloc: Global,
    ty: u16,
    givens: &[Given],
) -> Result<EntityId, BaseFault>
    requires { ty < length (B.schema base.old).names }
    ensures changes { (w : B.Witness) (s : State) → B.agrees base.new w → B.stands base.old w s → AdmitsGivens (next_entity s ty) givens.now (entity_made s ty) →
        Changes (spent s ty) (B.stands base.new w) (B.asks base.old base.new w) s (givens_set (next_entity s ty) givens.now (entity_made s ty)) (λ made. made ≡ next_entity s ty)
        (store Extent ty ∷ [] ++ givens_stores s.schema (next_entity s ty) givens.now) result }
    ensures keeps { Keeps (B.follows base.old base.new) (B.met base.old) (B.met base.new) result }
{
    let entity = make_entity(base, alloc, ty)?;
    set_all(base, alloc, entity, givens)
}

/// Makes an entity of a type with what is given, or refuses it by the rules 8, 3, 4 and 9 in this order. A key has to be given.
pub(crate) fn make_given<B: Base>(
    base: &mut B,
    alloc: Global,
    schema: &Schema,
    ty: u16,
    key: Option<u16>,
    givens: &[Given],
) -> Result<EntityId, BaseFault>
    requires schema { schema.now ≡ B.schema base.old }
    requires there { ty < length (B.schema base.old).names }
    ensures changes { (w : B.Witness) (s : State) → B.agrees base.new w → B.stands base.old w s → CanMake s ty key givens.now →
        Changes (makes_refused s ty key givens.now) (B.stands base.new w) (B.asks base.old base.new w) s (givens_set (next_entity s ty) givens.now (entity_made s ty)) (λ made. made ≡ next_entity s ty)
        (makes_stores s ty key givens.now) result }
    ensures keeps { Keeps (B.follows base.old base.new) (B.met base.old) (B.met base.new) result }
{
    let fillings = new_fillings(alloc, schema, ty, key, givens)?;
    match refused(base, alloc, schema, None, fillings.as_slice())? {
        Some(refusal) => Err(BaseFault::Refused(refusal)),
        None => make_filled(base, alloc, ty, givens),
    }
}

/// Makes an entity of a type with what cells give.
fn make_of<B: Base>(
    base: &mut B,
    alloc: Global,
    schema: &Schema,
    variables: &[Variable],
    ty: u16,
    cells: &[Cell],
) -> Result<EntityId, BaseFault>
    requires schema { schema.now ≡ B.schema base.old }
    requires there { ty < length (B.schema base.old).names }
    ensures changes { (w : B.Witness) (s : State) → B.agrees base.new w → B.stands base.old w s → All (λ c. AdmitsTerm s variables.now c.value) cells.now →
        CanMake s ty None (givens_of s variables.now ty cells.now) →
        Changes (makes_refused s ty None (givens_of s variables.now ty cells.now)) (B.stands base.new w) (B.asks base.old base.new w) s
        (givens_set (next_entity s ty) (givens_of s variables.now ty cells.now) (entity_made s ty)) (λ made. made ≡ next_entity s ty)
        (flat_map (λ c. term_stores s.schema variables.now c.value) cells.now ++ makes_stores s ty None (givens_of s variables.now ty cells.now)) result }
    ensures keeps { Keeps (B.follows base.old base.new) (B.met base.old) (B.met base.new) result }
{
    let givens = givens_of(base, alloc, schema, variables, ty, cells)?;
    make_given(base, alloc, schema, ty, None, givens.as_slice())
}

/// Runs a `make` that was checked: a new entity of a type, with the values of its cells, or a refusal. Over a base with that
/// schema.
pub fn make<B: Base>(
    base: &mut B,
    alloc: Global,
    schema: &Schema,
    variables: &[Variable],
    ty: &[u8],
    cells: &[Cell],
) -> Result<EntityId, BaseFault>
    requires { schema.now ≡ B.schema base.old }
    ensures changes { (w : B.Witness) (s : State) → B.agrees base.new w → B.stands base.old w s → (var : List ℕ) →
        IsChecked (present s variables.now) (Make var ty.now cells.now) →
        Changes (refusal (present s variables.now) (Make var ty.now cells.now)) (B.stands base.new w) (B.asks base.old base.new w) s
        (does (present s variables.now) (Make var ty.now cells.now)).state
        (λ made. (does (present s variables.now) (Make var ty.now cells.now)).variables ≡ bind var (Entity made) variables.now)
        (touched s.schema variables.now (Make var ty.now cells.now)) result }
    ensures keeps { Keeps (B.follows base.old base.new) (B.met base.old) (B.met base.new) result }
{
    match schema.type_named(ty) {
        Some(ty) => make_of(base, alloc, schema, variables, ty, cells),
        None => Err(BaseFault::Refused(Refusal::WrongType)),
    }
}
