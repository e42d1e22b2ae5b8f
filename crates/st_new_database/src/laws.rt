//! A law of the definitions, by a function that does nothing.
ghost use Rattle.std.specs.Prelude.{◌≡◌, ◌<◌, ℕ, List, length, slice_get, Some};
ghost use Rattle.std.specs.List.{All};
ghost use Rattle.st_lattice.specs.Outline.{Outline};
ghost use Rattle.st_lattice.specs.Stores.{stores_of};
ghost use Rattle.st_pages.specs.Attempt.{Array};
ghost use Rattle.st_schema_bytes.specs.SchemaBytes.{IsReadable};
ghost use Rattle.st_catalog.specs.Catalog.{Has};
ghost use Rattle.st_new_database.specs.New.{database_pages, places_of};

use st_lattice::laws_of_stores;
use st_schema::{laws_of_canonical_texts, laws_of_schemas};

/// A database that has the pages of both chains has the schema, and its stores have these first pages.
pub fn laws_of_new_databases()
    ensures { (schema : Outline) (firsts : List ℕ) (pages : Array) → IsReadable schema → length firsts ≡ length (stores_of schema) →
        All (λ f. f < 65536) firsts →
        ((number : ℕ) (image : List ℕ) → slice_get (database_pages schema firsts) number ≡ Some image → pages number ≡ image) →
        Has pages schema (places_of schema firsts) }
{
    laws_of_stores();
    laws_of_schemas();
    laws_of_canonical_texts();
}
