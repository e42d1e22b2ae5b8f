//! Laws of the definitions: a function that does nothing, and whose contract states them.
ghost use Rattle.std.specs.Prelude.{◌≡◌, List};
ghost use Rattle.st_lattice.specs.Outline.{Outline};
ghost use Rattle.st_pages.specs.Attempt.{Array};
ghost use Rattle.st_pages.specs.Places.{AscendByStore};
ghost use Rattle.st_pages.specs.declared.places.Place.{Place};
ghost use Rattle.st_catalog.specs.Catalog.{Has};

use st_lattice::laws_of_stores;
use st_schema::laws_of_schemas;

/// The places that pages have are in the order of their stores, and no two are those of one store.
pub fn laws_of_order()
    ensures { (array : Array) (schema : Outline) (places : List Place) → Has array schema places → AscendByStore places }
{
    laws_of_stores();
    laws_of_schemas();
}
