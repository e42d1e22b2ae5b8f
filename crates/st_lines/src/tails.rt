//! What lines say.
ghost use Rattle.std.specs.Prelude.{◌≡◌, [], ◌∷◌, ◌++◌, map, flat_map, All, Some, IfOk, OnOk};
ghost use Rattle.std.specs.List.{join_with_byte};
ghost use Rattle.st_values.specs.Print.{printed, printed_entity};
ghost use Rattle.st_values.specs.declared.value.Value.TheVariants.{Entity};
ghost use Rattle.st_meaning.specs.declared.meaning.Meaning.TheVariants.{Single};
ghost use Rattle.st_state.specs.State.{State};
ghost use Rattle.st_meaning.specs.Terms.{term_meaning};
ghost use Rattle.st_meaning.specs.Statements.{printed_meaning, tail, print_tail};
ghost use Rattle.st_terms.specs.Looks.{Looks, Keeps};
ghost use Rattle.st_terms.specs.Checked.{present};
ghost use Rattle.st_terms.specs.Routes.{IsReadingOf, AdmitsRoute, AdmitsTerm, route_meaning, route_stores, route_places, term_stores, term_places};

use st_lattice::Schema;
use st_meaning::Meaning;
use st_plain::{Base, BaseFault};
use st_query::{Term, Variable};
use st_terms::{Route, evaluate, term_meaning};
use st_text::Letters;
use st_values::{EntityId, Value, push_value};
use std::alloc::{AllocError, Global};

/// Adds values as they are printed, each behind a space.
fn push_behind(into: &mut Letters, values: &[Value], names: &[Letters]) -> Result<(), AllocError>
    ensures { OnOk result (into.new ≡ into.old ++ flat_map (λ value. 32 ∷ printed names.now value) values.now) }
{
    for value in values {
        into.push_str(" ")?;
        push_value(into, value, names)?;
    }
    Ok(())
}

/// Adds values as they are printed, with a space between two.
fn push_values(into: &mut Letters, values: &[Value], names: &[Letters]) -> Result<(), AllocError>
    ensures { OnOk result (into.new ≡ into.old ++ join_with_byte 32 (map (printed names.now) values.now)) }
{
    match values {
        [] => Ok(()),
        [first, others @ ..] => {
            push_value(into, first, names)?;
            push_behind(into, others, names)
        }
    }
}

fn push_set(into: &mut Letters, values: &[Value], names: &[Letters]) -> Result<(), AllocError>
    ensures { OnOk result (into.new ≡ into.old ++ 123 ∷ join_with_byte 32 (map (printed names.now) values.now) ++ 125 ∷ []) }
{
    into.push_str("{")?;
    push_values(into, values, names)?;
    into.push_str("}")
}

fn push_meaning(into: &mut Letters, meaning: &Meaning, names: &[Letters]) -> Result<(), AllocError>
    ensures { OnOk result (into.new ≡ into.old ++ printed_meaning names.now meaning.now) }
{
    match meaning {
        Meaning::Single(value) => push_value(into, value, names),
        Meaning::Set(values) => push_set(into, values.as_slice(), names),
    }
}

fn push_term<B: Base>(
    base: &mut B,
    alloc: Global,
    into: &mut Letters,
    schema: &Schema,
    variables: &[Variable],
    term: &Term,
) -> Result<(), BaseFault>
    requires { schema.now ≡ B.schema base.old }
    ensures looks { (w : B.Witness) (s : State) → B.agrees base.new w → B.stands base.old w s → AdmitsTerm s variables.now term.now →
        Looks (B.stands base.new w s) (B.asks base.old base.new w) (B.reached base.new w)
        (λ _. into.new ≡ into.old ++ 32 ∷ printed_meaning s.schema.names (term_meaning s variables.now term.now))
        (term_stores s.schema variables.now term.now) (term_places s variables.now term.now) result }
    ensures keeps { Keeps (B.follows base.old base.new) (B.met base.old) (B.met base.new) result }
{
    let meaning = term_meaning(base, alloc, schema, variables, term)?;
    into.push_str(" ")?;
    push_meaning(into, &meaning, schema.type_names())?;
    Ok(())
}

/// What the line of a print says.
pub fn print<B: Base>(
    base: &mut B,
    alloc: Global,
    schema: &Schema,
    variables: &[Variable],
    terms: &[Term],
) -> Result<Letters, BaseFault>
    requires { schema.now ≡ B.schema base.old }
    ensures looks { (w : B.Witness) (s : State) → B.agrees base.new w → B.stands base.old w s → All (AdmitsTerm s variables.now) terms.now →
        Looks (B.stands base.new w s) (B.asks base.old base.new w) (B.reached base.new w) (λ text. text ≡ print_tail (present s variables.now) terms.now)
        (flat_map (term_stores s.schema variables.now) terms.now) (flat_map (term_places s variables.now) terms.now) result }
    ensures keeps { Keeps (B.follows base.old base.new) (B.met base.old) (B.met base.new) result }
{
    let mut text = Letters::from_text(alloc, "=")?;
    for term in terms {
        push_term(base, alloc, &mut text, schema, variables, term)?;
    }
    Ok(text)
}

fn push_route<B: Base>(
    base: &mut B,
    alloc: Global,
    into: &mut Letters,
    names: &[Letters],
    route: &Route,
    entity: EntityId,
) -> Result<(), BaseFault>
    requires { All (IsReadingOf (B.schema base.old)) route.now.readings }
    ensures looks { (w : B.Witness) (s : State) → B.agrees base.new w → B.stands base.old w s → AdmitsRoute s route.now (Some entity) →
        Looks (B.stands base.new w s) (B.asks base.old base.new w) (B.reached base.new w)
        (λ _. into.new ≡ into.old ++ 32 ∷ printed_meaning names.now (route_meaning s route.now (Some entity)))
        (route_stores s.schema route.now) (route_places s route.now (Some entity)) result }
    ensures keeps { Keeps (B.follows base.old base.new) (B.met base.old) (B.met base.new) result }
{
    let meaning = evaluate(base, alloc, route, Some(entity))?;
    into.push_str(" ")?;
    push_meaning(into, &meaning, names)?;
    Ok(())
}

/// A star and an entity.
fn entity_head(alloc: Global, names: &[Letters], entity: EntityId) -> Result<Letters, AllocError>
    ensures { IfOk result (λ text. text ≡ 42 ∷ 32 ∷ printed_entity names.now entity) }
{
    let mut text = Letters::from_text(alloc, "* ")?;
    push_value(&mut text, &Value::Entity(entity), names)?;
    Ok(text)
}

/// What the line of an entity of a for-each says: the entity, and what is shown of it.
pub(crate) fn entity_tail<B: Base>(
    base: &mut B,
    alloc: Global,
    names: &[Letters],
    shown: &[Route],
    entity: EntityId,
) -> Result<Letters, BaseFault>
    requires { All (λ route. All (IsReadingOf (B.schema base.old)) route.readings) shown.now }
    ensures looks { (w : B.Witness) (s : State) → B.agrees base.new w → B.stands base.old w s → All (λ route. AdmitsRoute s route (Some entity)) shown.now →
        Looks (B.stands base.new w s) (B.asks base.old base.new w) (B.reached base.new w)
        (λ text. text ≡ tail names.now 42 (Single (Entity entity) ∷ map (λ route. route_meaning s route (Some entity)) shown.now))
        (flat_map (route_stores s.schema) shown.now) (flat_map (λ route. route_places s route (Some entity)) shown.now) result }
    ensures keeps { Keeps (B.follows base.old base.new) (B.met base.old) (B.met base.new) result }
{
    let mut text = entity_head(alloc, names, entity)?;
    for route in shown {
        push_route(base, alloc, &mut text, names, route, entity)?;
    }
    Ok(text)
}
