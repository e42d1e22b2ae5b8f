//! The places of an attribute's index and inverse.
ghost use Rattle.std.specs.Prelude.{◌≡◌};
ghost use Rattle.st_index.specs.Turned.{found_place};

use st_lattice::{StoreKind, store};
use st_pages::{Place, Places};

/// The place where an attribute's value is looked up.
pub(crate) fn found_place(places: &Places, number: u16) -> Option<Place>
    ensures { result ≡ found_place number places.now }
{
    match places.find(store(StoreKind::Inverse, number)) {
        Some(place) => Some(place),
        None => places.find(store(StoreKind::Index, number)),
    }
}
