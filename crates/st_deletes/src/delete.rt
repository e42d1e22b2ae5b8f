//! A deletion.
ghost use Rattle.std.specs.Prelude.{◌≡◌, ⊤, true, IfOk, IfSome};
ghost use Rattle.std.specs.List.{All};
ghost use Rattle.st_pages.specs.Calls.{HandsOn};
ghost use Rattle.st_catalog.specs.Stores.{AreOf};
ghost use Rattle.st_store.specs.Stores.{IsPlace};
ghost use Rattle.st_state.specs.State.{is_live};
ghost use Rattle.st_state.specs.Calls.{Admits, Delete};
ghost use Rattle.st_lookups.specs.Looks.{OfState};
ghost use Rattle.st_edits.specs.Edits.{Behaves, Edits, PutsStores};
ghost use Rattle.st_edits.specs.Steps.{IsSettled, Turns};
ghost use Rattle.st_removals.specs.Clears.{Removes};
ghost use Rattle.st_deletes.specs.Needs.{IsNeeded};

use crate::clearing::clear_attributes;
use crate::needs::still_needed;
use st_counts::laws_of_deleted;
use st_edits::told;
use st_lattice::Schema;
use st_page::PageFault;
use st_pages::{Pages, Places};
use st_plain::{BaseFault, Refusal};
use st_removals::remove;
use st_store::Store;
use st_values::EntityId;
use std::alloc::Global;

/// Takes an entity away, and all that speaks of it.
fn clear_and_remove<S: Store, P: Pages>(
    alloc: Global,
    schema: &Schema,
    places: &Places,
    pages: &mut P,
    entity: EntityId,
) -> Result<(), PageFault>
    requires of { AreOf schema.now places.now }
    requires fair { All IsPlace places.now }
    ensures follows { P.follows pages.old pages.new }
    ensures met { HandsOn (P.met pages.old) (P.met pages.new) result }
    ensures kinds { PutsStores (P.attempt pages.old) (P.attempt pages.new) }
    ensures removes { OfState S.holds (P.attempt pages.old) (P.attempt pages.new) schema.now places.now (λ array s. is_live s entity ≡ true →
        Removes S.holds (P.asked pages.old pages.new) (P.attempt pages.old) (P.attempt pages.new) array places.now entity s result) }
{
    match clear_attributes::<S, P>(alloc, schema, places, pages, entity) {
        Ok(()) => remove::<S, P>(alloc, schema, places, pages, entity),
        Err(fault) => Err(fault),
    }
}

/// Takes an entity away, or answers the refusal that is due by rule 6.
fn delete_settled<S: Store, P: Pages>(
    alloc: Global,
    schema: &Schema,
    places: &Places,
    pages: &mut P,
    entity: EntityId,
) -> Result<Option<Refusal>, PageFault>
    requires of { AreOf schema.now places.now }
    requires fair { All IsPlace places.now }
    ensures follows { P.follows pages.old pages.new }
    ensures met { HandsOn (P.met pages.old) (P.met pages.new) result }
    ensures own { IfOk result (λ settled. IfSome settled IsNeeded) }
    ensures kinds { PutsStores (P.attempt pages.old) (P.attempt pages.new) }
    ensures turns { OfState S.holds (P.attempt pages.old) (P.attempt pages.new) schema.now places.now (λ array s. Admits s (Delete entity) →
        Turns (P.asked pages.old pages.new) (P.attempt pages.old) (P.attempt pages.new) array s (Delete entity) (IsSettled S.holds (P.attempt pages.new) array places.now s (Delete entity)) result) }
{
    laws_of_deleted();
    match still_needed::<S, P>(alloc, schema, places, pages, entity) {
        Ok(None) => match clear_and_remove::<S, P>(alloc, schema, places, pages, entity) {
            Ok(()) => Ok(None),
            Err(fault) => Err(fault),
        },
        Ok(Some(refusal)) => Ok(Some(refusal)),
        Err(fault) => Err(fault),
    }
}

/// Deletes an entity: its row, its values in sets, and each reference to it, with the indexes and the inverses of their
/// attributes. Its serial stays used. The row of another entity is put once, with null in place of all its references to the
/// entity. Only stores that can name the entity are looked at.
///
/// # Errors
/// `Refused` by rule 6 where another entity refers to it by an attribute that admits no null, before anything is put, and by the
/// rules 12 and 13 where pages refuse; otherwise what a call of `Pages` answered, and `Memory`. Behind a fault of pages the
/// attempt can only be given up.
pub fn delete_entity<S: Store, P: Pages>(
    alloc: Global,
    schema: &Schema,
    places: &Places,
    pages: &mut P,
    entity: EntityId,
) -> Result<(), BaseFault>
    requires of { AreOf schema.now places.now }
    requires fair { All IsPlace places.now }
    ensures behaves { Behaves (P.follows pages.old pages.new) (P.met pages.old) (P.met pages.new) (Delete entity) result }
    ensures kinds { PutsStores (P.attempt pages.old) (P.attempt pages.new) }
    ensures edits { OfState S.holds (P.attempt pages.old) (P.attempt pages.new) schema.now places.now (λ array s. Admits s (Delete entity) →
        Edits S.holds (P.asked pages.old pages.new) (P.attempt pages.old) (P.attempt pages.new) array places.now s (Delete entity) (λ _. ⊤) result) }
{
    match delete_settled::<S, P>(alloc, schema, places, pages, entity) {
        Ok(None) => Ok(()),
        Ok(Some(refusal)) => Err(BaseFault::Refused(refusal)),
        Err(fault) => Err(told(fault)),
    }
}
