//! The entities that have a value.
ghost use Rattle.std.specs.Prelude.{◌≡◌, ◌∷◌, [], ◌||◌, Some, is_some};
ghost use Rattle.std.specs.List.{All};
ghost use Rattle.st_lattice.specs.Outline.{attribute};
ghost use Rattle.st_pages.specs.declared.places.Place.{Place};
ghost use Rattle.st_state.specs.State.{turned};
ghost use Rattle.st_state.specs.Calls.{CanHold, HasAttribute, found_in, stores_by};
ghost use Rattle.st_store.specs.Stores.{IsPlace};
ghost use Rattle.st_catalog.specs.Stores.{AreOf};
ghost use Rattle.st_index.specs.Turned.{found_place};
ghost use Rattle.st_lookups.specs.Looks.{Peeks, Finds, OfState};

use crate::holders::row_holders;
use st_database::{laws_of_places, look_up};
use st_lattice::{Attribute, Schema};
use st_page::PageFault;
use st_pages::{Pages, Places};
use st_store::Store;
use st_values::{Entities, Value};
use std::alloc::Global;

/// The entities whose attribute has a value, or has it in its set, in order, by its inverse, where it keeps one, else by its
/// index.
///
/// # Errors
/// `BadPage` where a page or a row is bad; otherwise what a call of `Pages` answered, and `Memory`.
pub fn found_holders<S: Store, P: Pages>(
    alloc: Global,
    schema: &Schema,
    places: &Places,
    pages: &mut P,
    number: u16,
    value: &Value,
) -> Result<Entities, PageFault>
    requires of { AreOf schema.now places.now }
    requires fair { All IsPlace places.now }
    ensures keeps { Peeks (P.follows pages.old pages.new) (P.attempt pages.old) (P.attempt pages.new) (P.met pages.old) (P.met pages.new) result }
    ensures finds { (place : Place) → found_place number places.now ≡ Some place →
        OfState S.holds (P.attempt pages.old) (P.attempt pages.new) schema.now places.now (λ array s. HasAttribute s.schema number → Finds (P.asked pages.old pages.new) (P.attempt pages.old) (P.attempt pages.new) array
        (λ entities. entities ≡ turned number value.now s.triples) (place.store ∷ []) result) }
{
    look_up::<S, P>(alloc, schema, places, pages, number, value)
}

/// Whether an attribute keeps an inverse or an index; each unique one keeps an index.
fn is_found(attribute: &Attribute) -> bool
    ensures { result ≡ (is_some attribute.now.inverse || (attribute.now.index || attribute.now.unique)) }
{
    attribute.inverse.is_some() || attribute.index || attribute.unique
}

/// The entities whose attribute has a value, or has it in its set, in order: by its inverse, where it keeps one, else by its
/// index, else by its rows.
///
/// # Errors
/// `BadPage` where a page or a row is bad; otherwise what a call of `Pages` answered.
pub fn turned<S: Store, P: Pages>(
    alloc: Global,
    schema: &Schema,
    places: &Places,
    pages: &mut P,
    number: u16,
    value: &Value,
) -> Result<Entities, PageFault>
    requires of { AreOf schema.now places.now }
    requires fair { All IsPlace places.now }
    ensures keeps { Peeks (P.follows pages.old pages.new) (P.attempt pages.old) (P.attempt pages.new) (P.met pages.old) (P.met pages.new) result }
    ensures finds { OfState S.holds (P.attempt pages.old) (P.attempt pages.new) schema.now places.now (λ array s. CanHold s number value.now → Finds (P.asked pages.old pages.new) (P.attempt pages.old) (P.attempt pages.new) array
        (λ entities. entities ≡ turned number value.now s.triples) (stores_by (found_in schema.now) (attribute schema.now number)) result) }
{
    laws_of_places();
    let Some(attribute) = schema.attribute(number) else {
        return Ok(Entities::new(alloc));
    };
    if is_found(attribute) {
        found_holders::<S, P>(alloc, schema, places, pages, number, value)
    } else {
        row_holders::<S, P>(alloc, schema, places, pages, attribute, value)
    }
}
