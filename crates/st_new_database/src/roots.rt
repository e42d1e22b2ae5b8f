//! The roots of stores, and their first pages.
ghost use Rattle.std.specs.Prelude.{◌≡◌, ◌+◌, ◌*◌, ◌<◌, ◌≤◌, ◌^◌, ◌++◌, length, map, flat_map, IfOk, OnOk, OnErr};
ghost use Rattle.std.specs.List.{range_with_len};
ghost use Rattle.st_new_database.specs.New.{both_chains, first_page, root, root_bytes, roots_of};

use crate::chain::push_both;
use crate::page::first_page;
use st_image::Page;
use std::alloc::{AllocError, Global};

/// Adds the bytes of a store's root.
fn push_root(store: u32, first: u32, bytes: &mut Vec<u8>) -> Result<(), AllocError>
    ensures { OnOk result (bytes.new.items ≡ bytes.old.items ++ root_bytes (root store first)) }
{
    bytes.extend_from_slice(&store.to_be_bytes())?;
    bytes.extend_from_slice(&first.to_be_bytes())
}

/// The bytes of the roots of stores, by their first pages.
fn roots_bytes(alloc: Global, stores: &[u32], firsts: &[u32]) -> Result<Vec<u8>, AllocError>
    requires { length firsts.now ≡ length stores.now }
    ensures bytes { IfOk result (λ bytes. bytes.items ≡ flat_map root_bytes (roots_of stores.now firsts.now)) }
    ensures size { IfOk result (λ bytes. length bytes.items ≡ 8 * length stores.now) }
{
    let mut bytes = Vec::new(alloc);
    for i in 0..stores.len() {
        push_root(stores[i], firsts[i], &mut bytes)?;
    }
    Ok(bytes)
}

/// Adds the pages of both chains, by the schema's bytes, and by the stores and their first pages.
pub fn push_chains(
    alloc: Global,
    schema: &[u8],
    stores: &[u32],
    firsts: &[u32],
    pages: &mut Vec<Page>,
) -> Result<(), AllocError>
    requires firsts { length firsts.now ≡ length stores.now }
    requires schema { length schema.now ≤ 1049350 }
    requires stores { length stores.now ≤ 66560 }
    ensures { OnOk result (pages.new.items ≡ pages.old.items ++ both_chains schema.now (flat_map root_bytes (roots_of stores.now firsts.now))) }
{
    let roots = roots_bytes(alloc, stores, firsts)?;
    push_both(schema, roots.as_slice(), pages)
}

/// So many numbers, from one on.
pub fn numbers_from(alloc: Global, first: u32, count: usize) -> Result<Vec<u32>, AllocError>
    requires { first + count < 2 ^ 32 }
    ensures { IfOk result (λ numbers. numbers.items ≡ range_with_len first count) }
{
    let mut numbers = Vec::new(alloc);
    for i in 0..count {
        numbers.push(first + i as u32)?;
    }
    Ok(numbers)
}

/// Adds the first page of each store.
pub fn push_first_pages(stores: &[u32], pages: &mut Vec<Page>) -> Result<(), AllocError>
    ensures { OnOk result (pages.new.items ≡ pages.old.items ++ map first_page stores.now) }
{
    for store in stores {
        pages.push(first_page(*store))?;
    }
    Ok(())
}
