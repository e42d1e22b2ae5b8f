//! What a term stands for at an entity, some of whose values are at hand.
ghost use Rattle.std.specs.Prelude.{◌≡◌, [], drop, IfOk, Some};
ghost use Rattle.st_state.specs.State.{State};
ghost use Rattle.st_known.specs.Known.{IsKnown};
ghost use Rattle.st_terms.specs.Looks.{Looks, Keeps};
ghost use Rattle.st_terms.specs.Routes.{route_meaning, route_stores, AdmitsRoute};
ghost use Rattle.st_select.specs.Search.{IsRouteOf, first_read, first_of_subject, first_value};

use st_known::{Known, known_value};
use st_meaning::Meaning;
use st_plain::{Base, BaseFault};
use st_terms::{Origin, Reading, Route, evaluate, walk};
use st_values::Value;
use std::alloc::{AllocError, Global};

/// The attribute whose value is read first.
fn first_read(readings: &[Reading]) -> Option<u16>
    ensures { result ≡ first_read readings.now }
{
    match readings {
        [Reading::Value(number), ..] => Some(*number),
        _ => None,
    }
}

/// The attribute that a term reads first of the entity that is looked at, if it begins with that entity.
fn first_of_subject(origin: &Origin, readings: &[Reading]) -> Option<u16>
    ensures { result ≡ first_of_subject origin.now readings.now }
{
    match origin {
        Origin::Subject => first_read(readings),
        Origin::Fixed(_) => None,
    }
}

/// A copy of the value that the first feature of a term has, where it is known of the entity that is looked at.
fn first_value(alloc: Global, route: &Route, known: &Known) -> Result<Option<Value>, AllocError>
    ensures { IfOk result (λ value. value ≡ first_value route.now known.now) }
{
    match first_of_subject(&route.origin, route.readings.as_slice()) {
        Some(number) => known_value(alloc, known, number),
        None => Ok(None),
    }
}

/// The readings behind the first one.
fn others(readings: &[Reading]) -> &[Reading]
    ensures { result.now ≡ drop 1 readings.now }
{
    match readings.split_first() {
        Some((_, others)) => others,
        None => readings,
    }
}

/// What a term stands for at an entity. Its first feature is not read where its value is known.
pub(crate) fn meaning_at<B: Base>(
    base: &mut B,
    alloc: Global,
    route: &Route,
    known: &Known,
) -> Result<Meaning, BaseFault>
    requires { IsRouteOf (B.schema base.old) route.now }
    ensures looks { (w : B.Witness) (s : State) → B.agrees base.new w → B.stands base.old w s → IsKnown s known.now → AdmitsRoute s route.now (Some known.now.entity) →
        Looks (B.stands base.new w s) (B.asks base.old base.new w) (B.reached base.new w) (λ m. m ≡ route_meaning s route.now (Some known.now.entity))
        (route_stores s.schema route.now) [] result }
    ensures keeps { Keeps (B.follows base.old base.new) (B.met base.old) (B.met base.new) result }
{
    match first_value(alloc, route, known)? {
        Some(value) => walk(
            base,
            alloc,
            others(route.readings.as_slice()),
            Meaning::Single(value),
        ),
        None => evaluate(base, alloc, route, Some(known.entity)),
    }
}
