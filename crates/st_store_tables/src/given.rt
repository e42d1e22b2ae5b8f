//! The pages of a case, and the words of its calls.
ghost use Rattle.std.specs.Prelude.{◌≤◌, IfOk, vec_len};

use crate::store::Asked;
use st_image::Page;
use st_memory_pages::MemoryPages;
use std::alloc::{AllocError, Global};
use std::str::SplitWhitespace;

/// Pages in memory, all blank but the first one of a store, which has no row. One call fails, if its number isn't 0.
pub fn memory_of(alloc: Global, asked: Asked, failing: u64) -> Result<MemoryPages, AllocError> {
    let images = images_of(alloc, asked)?;
    let mut calls = Vec::new(alloc);
    if failing != 0 {
        calls.push(failing)?;
    }
    MemoryPages::new(alloc, images, calls)
}

/// Blank pages, and behind them the first one of a store.
fn images_of(alloc: Global, asked: Asked) -> Result<Vec<Page>, AllocError>
    ensures { IfOk result (λ images. vec_len images ≤ 65536) }
{
    let mut images = vec![in alloc; Page::blank(); asked.first() as usize]?;
    images.push(first_page(asked))?;
    Ok(images)
}

/// The first page of a chain without rows.
fn first_page(asked: Asked) -> Page {
    let mut page = Page::blank();
    page.set_kind(2);
    page.set_store(asked.number());
    page
}

/// The number that the next word spells; the greatest one where it spells none.
pub fn number(words: &mut SplitWhitespace<'_>) -> u32 {
    words
        .next()
        .unwrap_or("")
        .parse::<u32>()
        .unwrap_or(u32::MAX)
}
