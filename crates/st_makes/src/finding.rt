//! The statement that finds an entity.
ghost use Rattle.std.specs.Prelude.{◌≡◌, ℕ, List, [], ◌++◌};
ghost use Rattle.st_query.specs.declared.statement.Statement.TheVariants.{Find};
ghost use Rattle.st_query.specs.Terms.{bind};
ghost use Rattle.st_state.specs.State.{State};
ghost use Rattle.st_state.specs.Legal.{IsNearlyLegal};
ghost use Rattle.st_state.specs.Calls.{HasAttribute};
ghost use Rattle.st_meaning.specs.Terms.{term_value};
ghost use Rattle.st_meaning.specs.Statements.{does, holder, found_value};
ghost use Rattle.st_terms.specs.Looks.{Looks, Keeps};
ghost use Rattle.st_terms.specs.Routes.{AdmitsTerm, term_stores};
ghost use Rattle.st_terms.specs.Checked.{present, IsChecked, touched};
ghost use Rattle.st_makes.specs.Makes.{IsMeant, found_stores};

use crate::holders::holder;
use st_lattice::{Attribute, Schema};
use st_plain::{Base, BaseFault};
use st_query::{Term, Variable};
use st_terms::term_value;
use st_values::{EntityId, Value};
use std::alloc::Global;

fn found_value(found: Option<EntityId>) -> Value
    ensures { result ≡ found_value found }
{
    match found {
        Some(entity) => Value::Entity(entity),
        None => Value::Null,
    }
}

/// The entity of a type whose attribute has the value that a term stands for.
fn holder_of<B: Base>(
    base: &mut B,
    alloc: Global,
    schema: &Schema,
    variables: &[Variable],
    ty: u16,
    key: &Attribute,
    value: &Term,
) -> Result<Option<EntityId>, BaseFault>
    requires schema { schema.now ≡ B.schema base.old }
    requires there { HasAttribute (B.schema base.old) key.now.number }
    ensures looks { (w : B.Witness) (s : State) → B.agrees base.new w → B.stands base.old w s → IsNearlyLegal s → AdmitsTerm s variables.now value.now →
        IsMeant s key.now (term_value s variables.now value.now) →
        Looks (B.stands base.new w s) (B.asks base.old base.new w) (B.reached base.new w)
        (λ found. found ≡ holder s ty (Some key.now) (term_value s variables.now value.now))
        (term_stores s.schema variables.now value.now ++ found_stores s.schema key.now.number) [] result }
    ensures keeps { Keeps (B.follows base.old base.new) (B.met base.old) (B.met base.new) result }
{
    let value = term_value(base, alloc, schema, variables, value)?;
    holder(base, alloc, schema, ty, key, &value)
}

/// The same entity as a value, or null.
fn find_by<B: Base>(
    base: &mut B,
    alloc: Global,
    schema: &Schema,
    variables: &[Variable],
    ty: u16,
    key: &Attribute,
    value: &Term,
) -> Result<Value, BaseFault>
    requires schema { schema.now ≡ B.schema base.old }
    requires there { HasAttribute (B.schema base.old) key.now.number }
    ensures looks { (w : B.Witness) (s : State) → B.agrees base.new w → B.stands base.old w s → IsNearlyLegal s → AdmitsTerm s variables.now value.now →
        IsMeant s key.now (term_value s variables.now value.now) →
        Looks (B.stands base.new w s) (B.asks base.old base.new w) (B.reached base.new w)
        (λ found. found ≡ found_value (holder s ty (Some key.now) (term_value s variables.now value.now)))
        (term_stores s.schema variables.now value.now ++ found_stores s.schema key.now.number) [] result }
    ensures keeps { Keeps (B.follows base.old base.new) (B.met base.old) (B.met base.new) result }
{
    let found = holder_of(base, alloc, schema, variables, ty, key, value)?;
    Ok(found_value(found))
}

/// Runs a `find` that was checked: the entity of a type whose attribute has a value, or null where there is none. Over a base
/// with that schema.
pub fn find<B: Base>(
    base: &mut B,
    alloc: Global,
    schema: &Schema,
    variables: &[Variable],
    ty: &[u8],
    key: &[u8],
    value: &Term,
) -> Result<Value, BaseFault>
    requires { schema.now ≡ B.schema base.old }
    ensures looks { (w : B.Witness) (s : State) → B.agrees base.new w → B.stands base.old w s → (var : List ℕ) →
        IsChecked (present s variables.now) (Find var ty.now key.now value.now) →
        Looks (B.stands base.new w s) (B.asks base.old base.new w) (B.reached base.new w)
        (λ found. (does (present s variables.now) (Find var ty.now key.now value.now)).variables ≡ bind var found variables.now)
        (touched s.schema variables.now (Find var ty.now key.now value.now)) [] result }
    ensures keeps { Keeps (B.follows base.old base.new) (B.met base.old) (B.met base.new) result }
{
    match schema.type_named(ty) {
        Some(ty) => match schema.attribute_of(ty, key) {
            Some(key) => find_by(base, alloc, schema, variables, ty, key, value),
            None => Ok(Value::Null),
        },
        None => Ok(Value::Null),
    }
}
