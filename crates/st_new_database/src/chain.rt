//! A chain of pages, by its bytes.
ghost use Rattle.std.specs.Prelude.{◌≡◌, ◌+◌, ◌*◌, ◌<◌, ◌≤◌, ◌^◌, ◌++◌, [], ◌∷◌, take, drop, length, OnOk};
ghost use Rattle.st_new_database.specs.New.{chain_of, pages_for, both_chains};

use crate::page::{BODY_SIZE, chain_page};
use st_image::Page;
use std::alloc::AllocError;

/// How many pages a chain of so many bytes has: at least one.
pub fn page_count(size: usize) -> usize
    ensures { result ≡ pages_for size }
{
    size.saturating_sub(1) / BODY_SIZE + 1
}

/// The first page of a chain of bytes, which goes on at the page `second`.
fn front_page(kind: u8, unit: usize, second: u32, bytes: &[u8]) -> Page
    requires { 0 < unit }
    ensures { take 1 (chain_of kind unit second bytes.now) ≡ result ∷ [] }
{
    if bytes.len() <= BODY_SIZE {
        chain_page(kind, (bytes.len() / unit) as u16, 0, bytes)
    } else {
        let (piece, _) = bytes.split_at(BODY_SIZE);
        chain_page(kind, (BODY_SIZE / unit) as u16, second, piece)
    }
}

/// Adds all pages of a chain of bytes.
fn push_chain(
    kind: u8,
    unit: usize,
    second: u32,
    bytes: &[u8],
    pages: &mut Vec<Page>,
) -> Result<(), AllocError>
    requires unit { 0 < unit }
    requires room { second + length bytes.now < 2 ^ 32 }
    ensures { OnOk result (pages.new.items ≡ pages.old.items ++ chain_of kind unit second bytes.now) }
{
    let mut rest = bytes;
    let mut next = second;
    while rest.len() > BODY_SIZE {
        pages.push(front_page(kind, unit, next, rest))?;
        rest = rest.split_at(BODY_SIZE).1;
        next += 1;
    }
    Ok(pages.push(front_page(kind, unit, next, rest))?)
}

/// Adds the first page of a chain of bytes.
fn push_front(
    kind: u8,
    unit: usize,
    second: u32,
    bytes: &[u8],
    pages: &mut Vec<Page>,
) -> Result<(), AllocError>
    requires { 0 < unit }
    ensures { OnOk result (pages.new.items ≡ pages.old.items ++ take 1 (chain_of kind unit second bytes.now)) }
{
    Ok(pages.push(front_page(kind, unit, second, bytes))?)
}

/// Adds the pages of a chain of bytes but the first.
fn push_others(
    kind: u8,
    unit: usize,
    second: u32,
    bytes: &[u8],
    pages: &mut Vec<Page>,
) -> Result<(), AllocError>
    requires unit { 0 < unit }
    requires room { second + length bytes.now < 2 ^ 32 }
    ensures { OnOk result (pages.new.items ≡ pages.old.items ++ drop 1 (chain_of kind unit second bytes.now)) }
{
    if bytes.len() <= BODY_SIZE {
        return Ok(());
    }
    let (_, rest) = bytes.split_at(BODY_SIZE);
    push_chain(kind, unit, second + 1, rest, pages)
}

/// Adds the pages of a schema's chain and the roots'.
pub fn push_both(schema: &[u8], roots: &[u8], pages: &mut Vec<Page>) -> Result<(), AllocError>
    requires { length schema.now + length roots.now < 2 ^ 31 }
    ensures { OnOk result (pages.new.items ≡ pages.old.items ++ both_chains schema.now roots.now) }
{
    let second = page_count(schema.len()) as u32 + 1;
    push_front(5, 8, second, roots, pages)?;
    push_chain(1, 1, 2, schema, pages)?;
    push_others(5, 8, second, roots, pages)
}
