//! Calls on the index and the inverse of an attribute of a database.
ghost use Rattle.std.specs.Prelude.{◌≡◌, ◌*◌, [], ◌∷◌, ⊤, true, false, if◌then◌else◌, List, IfErr, IfSome, IsTrue};
ghost use Rattle.std.specs.List.{All};
ghost use Rattle.st_values.specs.Order.{same_value};
ghost use Rattle.st_lattice.specs.Outline.{attribute as numbered};
ghost use Rattle.st_keys.specs.Keys.{IsEntity};
ghost use Rattle.st_pages.specs.Attempt.{may_put};
ghost use Rattle.st_pages.specs.Calls.{HandsOn, is_of_looking};
ghost use Rattle.st_state.specs.State.{Pair};
ghost use Rattle.st_store.specs.Stores.{HasPutStores, IsPlace, any_page};
ghost use Rattle.st_catalog.specs.Stores.{AreOf};
ghost use Rattle.st_index.specs.Turned.{AreOfPairs, IsOrNull, entities_with, found_place, turned_places};
ghost use Rattle.st_index.specs.Bad.{IsNamed};
ghost use Rattle.st_database.specs.Database.{noted_view};
ghost use Rattle.st_database.specs.Touches.{Leads, OfDatabase, pairs_added, pairs_changed, stores_at};

use crate::order::laws_of_order;
use st_index::{lookup, note};
use st_lattice::Schema;
use st_page::PageFault;
use st_pages::{Pages, Places};
use st_store::Store;
use st_values::{Entities, EntityId, Value};
use std::alloc::Global;

/// Notes in the index and the inverse of an attribute, where it keeps them, that an entity's value changed from an old one to
/// a new one; null is no value.
///
/// # Errors
/// What a call of `Pages` answered; `BadPage` only where the pages are no database with the schema. The attempt can then only
/// be given up.
pub fn note_pair<S: Store, P: Pages>(
    alloc: Global,
    schema: &Schema,
    places: &Places,
    pages: &mut P,
    attribute: u16,
    entity: EntityId,
    old: &Value,
    new: &Value,
) -> Result<(), PageFault>
    requires of { AreOf schema.now places.now }
    requires fair { All IsPlace places.now }
    requires there { IfSome (numbered schema.now attribute) (λ a. IsOrNull a.kind old.now × IsOrNull a.kind new.now) }
    requires entity { IsEntity entity }
    ensures follows { P.follows pages.old pages.new }
    ensures met { HandsOn (P.met pages.old) (P.met pages.new) result }
    ensures kinds { HasPutStores (P.attempt pages.old) → P.asked pages.old pages.new any_page (may_put (P.attempt pages.new)) (17 * pairs_added attribute places.now old.now new.now) }
    ensures leads { OfDatabase S.holds (P.attempt pages.old) (P.attempt pages.new) schema.now places.now (λ array view. IfSome (numbered schema.now attribute) (λ a.
        Leads S.holds (P.asked pages.old pages.new) (P.attempt pages.old) (P.attempt pages.new) array schema.now places.now
        (if same_value old.now new.now then view else noted_view attribute a.kind entity old.now new.now view) (λ done. ⊤)
        (stores_at (turned_places attribute places.now)) true (17 * pairs_added attribute places.now old.now new.now) (34 * pairs_changed attribute places.now old.now new.now) result)) }
{
    laws_of_order();
    note::<S, P>(alloc, schema, places, pages, attribute, entity, old, new)
}

/// The entities that have a value, by the inverse or the index of an attribute, in their order. None where it keeps neither.
///
/// # Errors
/// What a call of `Pages` answered; `BadPage` only where the pages are no database with the schema whose rows there are those
/// of pairs that name entities of the right types.
pub fn look_up<S: Store, P: Pages>(
    alloc: Global,
    schema: &Schema,
    places: &Places,
    pages: &mut P,
    attribute: u16,
    value: &Value,
) -> Result<Entities, PageFault>
    requires of { AreOf schema.now places.now }
    requires fair { All IsPlace places.now }
    ensures follows { P.follows pages.old pages.new }
    ensures written { (P.attempt pages.new).written ≡ (P.attempt pages.old).written }
    ensures met { HandsOn (P.met pages.old) (P.met pages.new) result }
    ensures looks { IfErr result (λ fault. IsTrue (is_of_looking fault)) }
    ensures leads { OfDatabase S.holds (P.attempt pages.old) (P.attempt pages.new) schema.now places.now (λ array view. IfSome (numbered schema.now attribute) (λ a. IfSome (found_place attribute places.now) (λ place.
        (pairs : List Pair) → AreOfPairs a.kind (view.rows place.store) pairs → All (IsNamed schema.now a) pairs →
        Leads S.holds (P.asked pages.old pages.new) (P.attempt pages.old) (P.attempt pages.new) array schema.now places.now
        view (λ entities. entities ≡ entities_with value.now pairs) (place.store ∷ []) false 0 0 result))) }
{
    lookup::<S, P>(alloc, schema, places, pages, attribute, value)
}
