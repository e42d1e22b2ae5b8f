//! Values of sets that speak of an entity.
ghost use Rattle.std.specs.Prelude.{◌≡◌, true, IsTrue};
ghost use Rattle.std.specs.List.{All};
ghost use Rattle.st_values.specs.declared.value.EntityId.{EntityId};
ghost use Rattle.st_pages.specs.Calls.{HandsOn};
ghost use Rattle.st_catalog.specs.Stores.{AreOf};
ghost use Rattle.st_store.specs.Stores.{IsPlace};
ghost use Rattle.st_state.specs.State.{is_live, member_taken, speaks_of};
ghost use Rattle.st_state.specs.Calls.{Admits, Take};
ghost use Rattle.st_lookups.specs.Looks.{OfState};
ghost use Rattle.st_edits.specs.Edits.{PutsStores};
ghost use Rattle.st_removals.specs.Clears.{Clears};

use st_edits::drop_member;
use st_lattice::Schema;
use st_page::PageFault;
use st_pages::{Pages, Places};
use st_store::Store;
use st_values::{EntityId, Value};
use std::alloc::Global;

/// Takes a value out of the set of an attribute of an entity, where the entity or the value is one that is to be deleted.
///
/// # Errors
/// What a call of `Pages` answered, and `Memory`. The attempt can then only be given up.
pub fn forget<S: Store, P: Pages>(
    alloc: Global,
    schema: &Schema,
    places: &Places,
    pages: &mut P,
    holder: EntityId,
    number: u16,
    value: &Value,
) -> Result<(), PageFault>
    requires of { AreOf schema.now places.now }
    requires fair { All IsPlace places.now }
    ensures follows { P.follows pages.old pages.new }
    ensures met { HandsOn (P.met pages.old) (P.met pages.new) result }
    ensures kinds { PutsStores (P.attempt pages.old) (P.attempt pages.new) }
    ensures clears { OfState S.holds (P.attempt pages.old) (P.attempt pages.new) schema.now places.now (λ array s. Admits s (Take holder number value.now) →
        (entity : EntityId) → is_live s entity ≡ true → IsTrue (speaks_of entity (record { attribute = number; entity = holder; value = value.now })) →
        Clears S.holds (P.asked pages.old pages.new) (P.attempt pages.old) (P.attempt pages.new) array places.now entity s (λ t. t ≡ member_taken s number holder value.now) result) }
{
    match drop_member::<S, P>(alloc, schema, places, pages, holder, number, value) {
        Ok(_) => Ok(()),
        Err(fault) => Err(fault),
    }
}
