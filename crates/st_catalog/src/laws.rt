//! Laws of the definitions: a function that does nothing, and whose contract states them.
ghost use Rattle.std.specs.Prelude.{◌≡◌, ℕ, List};
ghost use Rattle.st_lattice.specs.Outline.{Outline};
ghost use Rattle.st_pages.specs.Attempt.{Array};
ghost use Rattle.st_pages.specs.declared.places.Place.{Place};
ghost use Rattle.st_catalog.specs.Catalog.{Has, IsBroken};

use st_image::laws_of_pages;
use st_schema_bytes::laws_of_schema_bytes;

/// Pages have one schema at most, with the places of its stores; and none where they are broken.
pub fn laws_of_catalogs()
    ensures one { (pages : Array) (a b : Outline) (p q : List Place) → Has pages a p → Has pages b q → (a ≡ b) × (p ≡ q) }
    ensures none { (pages : Array) (page place : ℕ) (schema : Outline) (places : List Place) → IsBroken pages page place → Has pages schema places → ⊥ }
{
    laws_of_pages();
    laws_of_schema_bytes();
}
