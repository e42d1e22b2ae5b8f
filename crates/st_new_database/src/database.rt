//! The pages of a new database, and those that name a schema and the first pages of its stores.
ghost use Rattle.std.specs.Prelude.{◌≡◌, ◌+◌, ◌*◌, ◌<◌, ◌≤◌, ◌^◌, ◌++◌, length, take, vec_len, IfOk, OnOk, OnErr};
ghost use Rattle.std.specs.List.{enumerate_from};
ghost use Rattle.st_lattice.specs.Stores.{stores_of};
ghost use Rattle.st_schema_bytes.specs.SchemaBytes.{schema_bytes, IsShort};
ghost use Rattle.st_new_database.specs.New.{database_pages, new_pages};

use crate::chain::page_count;
use crate::roots::{numbers_from, push_chains, push_first_pages};
use st_image::Page;
use st_lattice::{Schema, StoreIds};
use st_schema_bytes::encode_schema;
use std::alloc::{AllocError, Global};

/// The bytes of a schema, of which there are few.
fn bytes_of(alloc: Global, schema: &Schema) -> Result<Vec<u8>, AllocError>
    requires { IsShort schema.now }
    ensures same { IfOk result (λ bytes. bytes.items ≡ schema_bytes schema.now) }
    ensures few { IfOk result (λ bytes. length bytes.items ≤ 1049350) }
{
    // The attributes, of which there are at most 256, bound the bytes behind the text.
    let _attributes = schema.attributes();
    encode_schema(alloc, schema)
}

/// The stores of a schema, of which there are few: one for each type, and at most four for each attribute.
fn stores_in(alloc: Global, schema: &Schema) -> Result<StoreIds, AllocError>
    ensures same { IfOk result (λ stores. stores ≡ stores_of schema.now) }
    ensures few { IfOk result (λ stores. length stores ≤ 66560) }
{
    // The types and the attributes bound the stores.
    let _types = schema.type_count();
    let _attributes = schema.attributes();
    schema.stores_of(alloc)
}

/// The pages of both chains of a database, by the first pages of its stores.
fn database_pages(alloc: Global, schema: &Schema, firsts: &[u32]) -> Result<Vec<Page>, AllocError>
    requires short { IsShort schema.now }
    requires firsts { length firsts.now ≡ length (stores_of schema.now) }
    ensures pages { IfOk result (λ pages. pages.items ≡ database_pages schema.now firsts.now) }
    ensures few { IfOk result (λ pages. length pages.items < 2 ^ 32) }
{
    let bytes = bytes_of(alloc, schema)?;
    let stores = stores_in(alloc, schema)?;
    let mut pages = Vec::new(alloc);
    push_chains(
        alloc,
        bytes.as_slice(),
        stores.as_slice(),
        firsts,
        &mut pages,
    )?;
    Ok(pages)
}

/// Adds pages with their numbers, from 0 on. Where there is no memory, some have been added.
fn push_numbered(images: Vec<Page>, pages: &mut Vec<(u32, Page)>) -> Result<(), AllocError>
    requires { length images.items < 2 ^ 32 }
    ensures ok { OnOk result (pages.new.items ≡ pages.old.items ++ enumerate_from 0 images.items) }
    ensures front { take (vec_len pages.old) pages.new.items ≡ pages.old.items }
{
    let mut number = 0;
    for image in images {
        pages.push((number, image))?;
        number += 1;
    }
    Ok(())
}

/// Adds the pages that name a schema and the first pages of its stores, with their numbers: those of the chain of roots,
/// which begins at page 0, and of the schema's, which begins at page 1. All other numbers follow these, in order.
///
/// # Errors
/// `AllocError` where there is no memory; nothing is changed then.
pub fn write_roots(
    alloc: Global,
    schema: &Schema,
    firsts: &[u32],
    pages: &mut Vec<(u32, Page)>,
) -> Result<(), AllocError>
    requires short { IsShort schema.now }
    requires firsts { length firsts.now ≡ length (stores_of schema.now) }
    ensures ok { OnOk result (pages.new.items ≡ pages.old.items ++ enumerate_from 0 (database_pages schema.now firsts.now)) }
    ensures err { OnErr result (pages.new.items ≡ pages.old.items) }
{
    let images = database_pages(alloc, schema, firsts)?;
    let before = pages.len();
    let pushed = push_numbered(images, pages);
    if pushed.is_err() {
        pages.truncate(before);
    }
    pushed
}

/// The pages of a new database with a schema, from page 0 on: both chains, and an empty page of each store.
///
/// # Errors
/// `AllocError` where there is no memory.
pub fn new_database(alloc: Global, schema: &Schema) -> Result<Vec<Page>, AllocError>
    requires { IsShort schema.now }
    ensures { IfOk result (λ pages. pages.items ≡ new_pages schema.now) }
{
    let bytes = bytes_of(alloc, schema)?;
    let stores = stores_in(alloc, schema)?;
    let first = page_count(bytes.len()) + page_count(8 * stores.len());
    let firsts = numbers_from(alloc, first as u32, stores.len())?;
    let mut pages = Vec::new(alloc);
    push_chains(
        alloc,
        bytes.as_slice(),
        stores.as_slice(),
        firsts.as_slice(),
        &mut pages,
    )?;
    push_first_pages(stores.as_slice(), &mut pages)?;
    Ok(pages)
}
