//! Laws of the definitions: functions that do nothing, and whose contracts state them.
ghost use Rattle.std.specs.Prelude.{◌≡◌, true, false, List};
ghost use Rattle.std.specs.List.{All};
ghost use Rattle.st_lattice.specs.Outline.{Outline};
ghost use Rattle.st_pages.specs.declared.places.Place.{Place};
ghost use Rattle.st_pages.specs.Attempt.{Array};
ghost use Rattle.st_store.specs.Stores.{IsPlace};
ghost use Rattle.st_catalog.specs.Catalog.{Has};

use st_schema::laws_of_schemas;
use st_schema_bytes::laws_of_schema_bytes;

/// Where pages have a schema, the places of its stores are such as stores may stand at; none of its attributes has its values
/// apart from the rows, each unique one keeps an index, and no set is unique.
pub fn laws_of_places()
    ensures fair { (array : Array) (schema : Outline) (places : List Place) → Has array schema places → All IsPlace places }
    ensures in_rows { (array : Array) (schema : Outline) (places : List Place) → Has array schema places → All (λ a. a.column ≡ false) schema.attributes }
    ensures indexed { (array : Array) (schema : Outline) (places : List Place) → Has array schema places → All (λ a. a.unique ≡ true → a.index ≡ true) schema.attributes }
    ensures sets { (array : Array) (schema : Outline) (places : List Place) → Has array schema places → All (λ a. a.many ≡ true → a.unique ≡ false) schema.attributes }
{
    laws_of_schemas();
    laws_of_schema_bytes();
}
