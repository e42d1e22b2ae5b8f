//! The lines of a for-each.
ghost use Rattle.std.specs.Prelude.{◌≡◌, [], ◌∷◌, ◌++◌, length, map, flat_map, All, Some, IfOk};
ghost use Rattle.st_query.specs.Ways.{way};
ghost use Rattle.st_state.specs.State.{State};
ghost use Rattle.st_meaning.specs.Statements.{count_tail};
ghost use Rattle.st_terms.specs.Looks.{Looks, Keeps};
ghost use Rattle.st_terms.specs.Routes.{IsReadingOf, AdmitsRoute, route_of};
ghost use Rattle.st_lines.specs.Shown.{shown_tail, shown_stores, shown_places};

use crate::tails::entity_tail;
use itoa::Buffer;
use sqlite_items::Items;
use st_lattice::Schema;
use st_plain::{Base, BaseFault};
use st_query::{Term, Variable};
use st_terms::{Route, route_of};
use st_text::Letters;
use st_values::{EntityId, Lines};
use std::alloc::{AllocError, Global};

/// The terms that a query shows, looked up once for all its entities. `AllocError` where there is no memory.
pub(crate) fn shown_routes(
    alloc: Global,
    schema: &Schema,
    variables: &[Variable],
    subject: &[u8],
    shown: &[Term],
) -> Result<Vec<Route>, AllocError>
    ensures value { IfOk result (λ routes. routes.items ≡ map (λ term. route_of schema.now variables.now (Some subject.now) (way term)) shown.now) }
    ensures there { IfOk result (λ routes. All (λ route. All (IsReadingOf schema.now) route.readings) routes.items) }
{
    let mut routes = Vec::new(alloc);
    for term in shown {
        routes.push(route_of(alloc, schema, variables, Some(subject), term)?)?;
    }
    Ok(routes)
}

/// What the last line of a for-each says: how many entities there were.
fn count_tail(alloc: Global, count: usize) -> Result<Letters, AllocError>
    ensures { IfOk result (λ text. text ≡ count_tail count) }
{
    let mut text = Letters::from_text(alloc, ". ")?;
    let mut buffer = Buffer::new();
    text.push_str(buffer.format(count))?;
    Ok(text)
}

/// Adds what the line of an entity says.
fn push_entity<B: Base>(
    base: &mut B,
    alloc: Global,
    into: &mut Lines,
    names: &[Letters],
    shown: &[Route],
    entity: &EntityId,
) -> Result<(), BaseFault>
    requires { All (λ route. All (IsReadingOf (B.schema base.old)) route.readings) shown.now }
    ensures looks { (w : B.Witness) (s : State) → B.agrees base.new w → B.stands base.old w s → All (λ route. AdmitsRoute s route (Some entity.now)) shown.now →
        Looks (B.stands base.new w s) (B.asks base.old base.new w) (B.reached base.new w)
        (λ _. into.new ≡ into.old ++ shown_tail s names.now shown.now entity.now ∷ []) (shown_stores s shown.now) (shown_places s shown.now entity.now) result }
    ensures keeps { Keeps (B.follows base.old base.new) (B.met base.old) (B.met base.new) result }
{
    let tail = entity_tail(base, alloc, names, shown, *entity)?;
    into.push(tail)?;
    Ok(())
}

fn push_entities<B: Base>(
    base: &mut B,
    alloc: Global,
    names: &[Letters],
    shown: &[Route],
    entities: &[EntityId],
) -> Result<Lines, BaseFault>
    requires { All (λ route. All (IsReadingOf (B.schema base.old)) route.readings) shown.now }
    ensures looks { (w : B.Witness) (s : State) → B.agrees base.new w → B.stands base.old w s → All (λ e. All (λ route. AdmitsRoute s route (Some e)) shown.now) entities.now →
        Looks (B.stands base.new w s) (B.asks base.old base.new w) (B.reached base.new w)
        (λ lines. lines ≡ map (shown_tail s names.now shown.now) entities.now) (flat_map (λ e. shown_stores s shown.now) entities.now) (flat_map (shown_places s shown.now) entities.now) result }
    ensures keeps { Keeps (B.follows base.old base.new) (B.met base.old) (B.met base.new) result }
{
    let mut lines = Items::new(alloc);
    for entity in entities {
        push_entity(base, alloc, &mut lines, names, shown, entity)?;
    }
    Ok(lines)
}

/// What the lines of a for-each say: one for each entity, and how many there were.
pub(crate) fn query_tails<B: Base>(
    base: &mut B,
    alloc: Global,
    names: &[Letters],
    shown: &[Route],
    entities: &[EntityId],
) -> Result<Lines, BaseFault>
    requires { All (λ route. All (IsReadingOf (B.schema base.old)) route.readings) shown.now }
    ensures looks { (w : B.Witness) (s : State) → B.agrees base.new w → B.stands base.old w s → All (λ e. All (λ route. AdmitsRoute s route (Some e)) shown.now) entities.now →
        Looks (B.stands base.new w s) (B.asks base.old base.new w) (B.reached base.new w)
        (λ lines. lines ≡ map (shown_tail s names.now shown.now) entities.now ++ count_tail (length entities.now) ∷ [])
        (flat_map (λ e. shown_stores s shown.now) entities.now) (flat_map (shown_places s shown.now) entities.now) result }
    ensures keeps { Keeps (B.follows base.old base.new) (B.met base.old) (B.met base.new) result }
{
    let mut lines = push_entities(base, alloc, names, shown, entities)?;
    lines.push(count_tail(alloc, entities.len())?)?;
    Ok(lines)
}
