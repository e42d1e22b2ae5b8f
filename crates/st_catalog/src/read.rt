//! How the schema of a database and the places of its stores are read.
ghost use Rattle.std.specs.Prelude.{◌≡◌, ◌≤◌, ◌<◌, ℕ, ◌||◌, map, length, IfOk, IfErr};
ghost use Rattle.st_lattice.specs.Stores.{row_width};
ghost use Rattle.st_lattice.specs.Outline.{IsOrderly};
ghost use Rattle.st_pages.specs.Calls.{HandsOn, no_page};
ghost use Rattle.st_pages.specs.Chains.{is_on_way};
ghost use Rattle.st_catalog.specs.Catalog.{Has, SpellsSchema, NamesPlaces, SchemaBroken, RootsBroken, IsBroken};
ghost use Rattle.st_pages.specs.Reading.{ForEach, OfDamage};

use crate::gather::{Roots, SchemaBytes};
use crate::places::{are_of, places_of};
use crate::walk::walk;
use st_image::Wanted;
use st_lattice::{Schema, laws_of_stores};
use st_page::PageFault;
use st_pages::{Pages, Places};
use st_schema_bytes::{StoredFault, decode_schema, laws_of_schema_bytes};
use std::alloc::Global;

/// The schema of a database, and the places of its stores: for each a place, in the order of their numbers, and no other.
///
/// The schema's chain is read first, its bytes included, and then the roots' chain.
///
/// # Errors
/// `BadPage` exactly where the chains spell no schema with its stores: a page of a chain that isn't one, with the first
/// place at which it is none; else page 1 and place 16 where the schema's bytes are those of no schema, and page 0 and place
/// 16 where the roots don't name the schema's stores. Otherwise only what a call of `get` answered.
pub fn read_database<P: Pages>(alloc: Global, pages: &mut P) -> Result<(Schema, Places), PageFault>
    ensures follows { P.follows pages.old pages.new }
    ensures written { (P.attempt pages.new).written ≡ (P.attempt pages.old).written }
    ensures met { HandsOn (P.met pages.old) (P.met pages.new) result }
    ensures asked { ForEach (P.attempt pages.old) (P.attempt pages.new) (λ array.
        P.asked pages.old pages.new (λ page. is_on_way array 1 page || is_on_way array 0 page) no_page 0) }
    ensures has { IfOk result (λ found. ForEach (P.attempt pages.old) (P.attempt pages.new) (λ array. Has array found.0 found.1)) }
    ensures broken { IfErr result (OfDamage (λ page place. ForEach (P.attempt pages.old) (P.attempt pages.new) (λ array. IsBroken array page place))) }
{
    let schema = match read_schema(alloc, pages) {
        Ok(schema) => schema,
        Err(fault) => return Err(fault),
    };
    match read_places(alloc, pages, &schema) {
        Ok(places) => Ok((schema, places)),
        Err(fault) => Err(fault),
    }
}

/// The schema that the schema's chain spells.
fn read_schema<P: Pages>(alloc: Global, pages: &mut P) -> Result<Schema, PageFault>
    ensures follows { P.follows pages.old pages.new }
    ensures written { (P.attempt pages.new).written ≡ (P.attempt pages.old).written }
    ensures met { HandsOn (P.met pages.old) (P.met pages.new) result }
    ensures asked { ForEach (P.attempt pages.old) (P.attempt pages.new) (λ array. P.asked pages.old pages.new (is_on_way array 1) no_page 0) }
    ensures orderly { IfOk result (λ schema. IsOrderly schema) }
    ensures narrow { IfOk result (λ schema. (ty : ℕ) → ty < length schema.names → row_width schema ty ≤ 1000) }
    ensures spells { IfOk result (λ schema. ForEach (P.attempt pages.old) (P.attempt pages.new) (λ array. SpellsSchema array schema)) }
    ensures broken { IfErr result (OfDamage (λ page place. ForEach (P.attempt pages.old) (P.attempt pages.new) (λ array. SchemaBroken array page place))) }
{
    laws_of_schema_bytes();
    let mut gathered = SchemaBytes {
        bytes: Vec::new(alloc),
    };
    match walk(alloc, pages, Wanted::Schema, 1, &mut gathered) {
        Ok(true) => {}
        Ok(false) => return Err(PageFault::BadPage { page: 1, place: 16 }),
        Err(fault) => return Err(fault),
    }
    match decode_schema(alloc, &gathered.bytes) {
        Ok(schema) => Ok(schema),
        Err(StoredFault::NoSchema) => Err(PageFault::BadPage { page: 1, place: 16 }),
        Err(StoredFault::Memory) => Err(PageFault::Memory),
    }
}

/// The places that the roots' chain names, of the stores of a schema.
fn read_places<P: Pages>(alloc: Global, pages: &mut P, schema: &Schema) -> Result<Places, PageFault>
    requires orderly { IsOrderly schema.now }
    requires narrow { (ty : ℕ) → ty < length schema.now.names → row_width schema.now ty ≤ 1000 }
    ensures follows { P.follows pages.old pages.new }
    ensures written { (P.attempt pages.new).written ≡ (P.attempt pages.old).written }
    ensures met { HandsOn (P.met pages.old) (P.met pages.new) result }
    ensures asked { ForEach (P.attempt pages.old) (P.attempt pages.new) (λ array. P.asked pages.old pages.new (is_on_way array 0) no_page 0) }
    ensures names { IfOk result (λ places. ForEach (P.attempt pages.old) (P.attempt pages.new) (λ array. NamesPlaces array schema.now places)) }
    ensures broken { IfErr result (OfDamage (λ page place. ForEach (P.attempt pages.old) (P.attempt pages.new) (λ array. RootsBroken array schema.now page place))) }
{
    laws_of_stores();
    let mut gathered = Roots {
        roots: Vec::new(alloc),
    };
    match walk(alloc, pages, Wanted::Roots, 0, &mut gathered) {
        Ok(true) => {}
        Ok(false) => return Err(PageFault::BadPage { page: 0, place: 16 }),
        Err(fault) => return Err(fault),
    }
    let roots = gathered.roots.as_slice();
    match are_of(alloc, schema, roots) {
        Ok(true) => {}
        Ok(false) => return Err(PageFault::BadPage { page: 0, place: 16 }),
        Err(_) => return Err(PageFault::Memory),
    }
    match places_of(alloc, schema, roots) {
        Ok(places) => Ok(places),
        Err(_) => Err(PageFault::Memory),
    }
}
