//! What features give that are read one after another.
ghost use Rattle.std.specs.Prelude.{◌≡◌, ◌∷◌, [], flat_map, All, map, IfOk};
ghost use Rattle.st_values.specs.declared.value.Value.TheVariants.{Entity};
ghost use Rattle.st_state.specs.State.{State, value_at};
ghost use Rattle.st_state.specs.Calls.{HasAttribute, Admits, Get, Members, Turned};
ghost use Rattle.st_meaning.specs.Terms.{single, term_meaning, term_value};
ghost use Rattle.st_terms.specs.declared.route.Reading.TheVariants.{Value as One, Members as Many, Inverse};
ghost use Rattle.st_terms.specs.Looks.{Looks, Keeps};
ghost use Rattle.st_terms.specs.Routes.{reading_value, walked, reading_calls, AdmitsReading, AdmitsWalk, reading_stores, reading_places, walk_places, IsReadingOf, AdmitsRoute, AdmitsTerm, route_meaning, route_stores, route_places, term_stores, term_places};

use crate::route::origin_value;
use crate::{Reading, Route, route_of};
use sqlite_items::Items;
use st_lattice::Schema;
use st_meaning::Meaning;
use st_plain::{Base, BaseFault};
use st_query::{Term, Variable};
use st_values::{EntityId, Value, Values};
use std::alloc::{AllocError, Global};

fn entities_as_values(alloc: Global, entities: &[EntityId]) -> Result<Values, AllocError>
    ensures { IfOk result (λ values. values ≡ map Entity entities.now) }
{
    let mut values = Items::new(alloc);
    for entity in entities {
        values.push(Value::Entity(*entity))?;
    }
    Ok(values)
}

fn single(meaning: Meaning) -> Value
    ensures { result ≡ single meaning }
{
    match meaning {
        Meaning::Single(value) => value,
        Meaning::Set(_) => Value::Null,
    }
}

/// What a reading of a value that is no entity gives.
fn of_null(alloc: Global, reading: Reading) -> Meaning
    ensures { (s : State) (v : Value) → reading_calls reading v ≡ [] → result ≡ reading_value s reading v }
{
    match reading {
        Reading::Value(_) | Reading::Nothing => Meaning::Single(Value::Null),
        Reading::Members(_) | Reading::Inverse(_) => Meaning::Set(Items::new(alloc)),
    }
}

fn read_value<B: Base>(
    base: &mut B,
    alloc: Global,
    entity: EntityId,
    number: u16,
) -> Result<Meaning, BaseFault>
    ensures looks { (w : B.Witness) (s : State) → B.agrees base.new w → B.stands base.old w s → AdmitsReading s (One number) (Entity entity) →
        Looks (B.stands base.new w s) (B.asks base.old base.new w) (B.reached base.new w) (λ m. m ≡ reading_value s (One number) (Entity entity))
        (reading_stores s.schema (One number)) (reading_places (One number) (Entity entity)) result }
    ensures keeps { Keeps (B.follows base.old base.new) (B.met base.old) (B.met base.new) result }
{
    Ok(Meaning::Single(base.get(alloc, entity, number)?))
}

fn read_members<B: Base>(
    base: &mut B,
    alloc: Global,
    entity: EntityId,
    number: u16,
) -> Result<Meaning, BaseFault>
    ensures looks { (w : B.Witness) (s : State) → B.agrees base.new w → B.stands base.old w s → AdmitsReading s (Many number) (Entity entity) →
        Looks (B.stands base.new w s) (B.asks base.old base.new w) (B.reached base.new w) (λ m. m ≡ reading_value s (Many number) (Entity entity))
        (reading_stores s.schema (Many number)) (reading_places (Many number) (Entity entity)) result }
    ensures keeps { Keeps (B.follows base.old base.new) (B.met base.old) (B.met base.new) result }
{
    Ok(Meaning::Set(base.members(alloc, entity, number)?))
}

fn read_inverse<B: Base>(
    base: &mut B,
    alloc: Global,
    value: &Value,
    number: u16,
) -> Result<Meaning, BaseFault>
    requires there { HasAttribute (B.schema base.old) number }
    requires entity { (e : EntityId) × (value.now ≡ Entity e) }
    ensures looks { (w : B.Witness) (s : State) → B.agrees base.new w → B.stands base.old w s → AdmitsReading s (Inverse number) value.now →
        Looks (B.stands base.new w s) (B.asks base.old base.new w) (B.reached base.new w) (λ m. m ≡ reading_value s (Inverse number) value.now)
        (reading_stores s.schema (Inverse number)) (reading_places (Inverse number) value.now) result }
    ensures keeps { Keeps (B.follows base.old base.new) (B.met base.old) (B.met base.new) result }
{
    let entities = base.turned(alloc, number, value)?;
    Ok(Meaning::Set(entities_as_values(alloc, entities.as_slice())?))
}

/// What a reading of a value gives.
fn read<B: Base>(
    base: &mut B,
    alloc: Global,
    reading: Reading,
    value: &Value,
) -> Result<Meaning, BaseFault>
    requires { IsReadingOf (B.schema base.old) reading }
    ensures looks { (w : B.Witness) (s : State) → B.agrees base.new w → B.stands base.old w s → AdmitsReading s reading value.now →
        Looks (B.stands base.new w s) (B.asks base.old base.new w) (B.reached base.new w) (λ m. m ≡ reading_value s reading value.now)
        (reading_stores s.schema reading) (reading_places reading value.now) result }
    ensures keeps { Keeps (B.follows base.old base.new) (B.met base.old) (B.met base.new) result }
{
    match (reading, value) {
        (Reading::Value(number), Value::Entity(entity)) => read_value(base, alloc, *entity, number),
        (Reading::Members(number), Value::Entity(entity)) => {
            read_members(base, alloc, *entity, number)
        }
        (Reading::Inverse(number), Value::Entity(_)) => read_inverse(base, alloc, value, number),
        _ => Ok(of_null(alloc, reading)),
    }
}

/// What readings give, one after another, of what is there first, over a base with that schema. Each is one call of the base at most.
pub fn walk<B: Base>(
    base: &mut B,
    alloc: Global,
    readings: &[Reading],
    from: Meaning,
) -> Result<Meaning, BaseFault>
    requires { All (IsReadingOf (B.schema base.old)) readings.now }
    ensures looks { (w : B.Witness) (s : State) → B.agrees base.new w → B.stands base.old w s → AdmitsWalk s readings.now from →
        Looks (B.stands base.new w s) (B.asks base.old base.new w) (B.reached base.new w) (λ m. m ≡ walked s readings.now from)
        (flat_map (reading_stores s.schema) readings.now) (walk_places s readings.now from) result }
    ensures keeps { Keeps (B.follows base.old base.new) (B.met base.old) (B.met base.new) result }
{
    match readings {
        [] => Ok(from),
        [reading, others @ ..] => {
            let next = read(base, alloc, *reading, &single(from))?;
            walk(base, alloc, others, next)
        }
    }
}

/// What a term stands for that was looked up, over a base with that schema; `subject` is the entity that a query looks at, if
/// one does. Each feature is one call of the base.
pub fn evaluate<B: Base>(
    base: &mut B,
    alloc: Global,
    route: &Route,
    subject: Option<EntityId>,
) -> Result<Meaning, BaseFault>
    requires { All (IsReadingOf (B.schema base.old)) route.now.readings }
    ensures looks { (w : B.Witness) (s : State) → B.agrees base.new w → B.stands base.old w s → AdmitsRoute s route.now subject →
        Looks (B.stands base.new w s) (B.asks base.old base.new w) (B.reached base.new w) (λ m. m ≡ route_meaning s route.now subject)
        (route_stores s.schema route.now) (route_places s route.now subject) result }
    ensures keeps { Keeps (B.follows base.old base.new) (B.met base.old) (B.met base.new) result }
{
    let from = origin_value(alloc, &route.origin, subject)?;
    walk(
        base,
        alloc,
        route.readings.as_slice(),
        Meaning::Single(from),
    )
}

/// What a term of a statement stands for, outside a query.
pub fn term_meaning<B: Base>(
    base: &mut B,
    alloc: Global,
    schema: &Schema,
    variables: &[Variable],
    term: &Term,
) -> Result<Meaning, BaseFault>
    requires { schema.now ≡ B.schema base.old }
    ensures looks { (w : B.Witness) (s : State) → B.agrees base.new w → B.stands base.old w s → AdmitsTerm s variables.now term.now →
        Looks (B.stands base.new w s) (B.asks base.old base.new w) (B.reached base.new w) (λ m. m ≡ term_meaning s variables.now term.now)
        (term_stores s.schema variables.now term.now) (term_places s variables.now term.now) result }
    ensures keeps { Keeps (B.follows base.old base.new) (B.met base.old) (B.met base.new) result }
{
    let route = route_of(alloc, schema, variables, None, term)?;
    evaluate(base, alloc, &route, None)
}

/// The value that a term of a statement stands for, outside a query; null where it stands for a set.
pub fn term_value<B: Base>(
    base: &mut B,
    alloc: Global,
    schema: &Schema,
    variables: &[Variable],
    term: &Term,
) -> Result<Value, BaseFault>
    requires { schema.now ≡ B.schema base.old }
    ensures looks { (w : B.Witness) (s : State) → B.agrees base.new w → B.stands base.old w s → AdmitsTerm s variables.now term.now →
        Looks (B.stands base.new w s) (B.asks base.old base.new w) (B.reached base.new w) (λ v. v ≡ term_value s variables.now term.now)
        (term_stores s.schema variables.now term.now) (term_places s variables.now term.now) result }
    ensures keeps { Keeps (B.follows base.old base.new) (B.met base.old) (B.met base.new) result }
{
    Ok(single(term_meaning(base, alloc, schema, variables, term)?))
}
