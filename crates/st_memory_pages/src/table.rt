//! The table of what is kept of each page.
ghost use Rattle.std.specs.Prelude.{◌≡◌, ℕ, ◌+◌, ◌<◌, ◌≤◌, Some, None, true, false, not, length, slice_set, IfOk, IfSome, IfNone, OnOk, OnErr};
ghost use Rattle.st_pages.specs.Attempt.{IsImage, how_many, page_count};
ghost use Rattle.st_memory_pages.specs.Slots.{Kept, array_of, kept_of, is_free, is_blank_in, unused, one};

use crate::images::is_blank_at;
use crate::slot::Slot;
use st_image::Page;
use std::alloc::{AllocError, Global};

/// What is kept of a page.
pub fn slot_at(table: &[Slot], page: usize) -> &Slot
    requires { page < length table.now }
    ensures { result.now ≡ kept_of table.now page }
{
    &table[page]
}

/// Sees a page.
pub fn see(table: &mut [Slot], page: usize)
    requires { page < length table.old }
    ensures { table.new ≡ slice_set table.old page (record (kept_of table.old page) { seen = true }) }
{
    let slot = &mut table[page];
    slot.see();
}

/// Draws a page.
pub fn draw(table: &mut [Slot], page: usize)
    requires { page < length table.old }
    ensures { table.new ≡ slice_set table.old page (record (kept_of table.old page) { seen = true; drawn = true }) }
{
    let slot = &mut table[page];
    slot.draw();
}

/// Puts an image of a page.
pub fn put(alloc: Global, table: &mut [Slot], page: usize, image: &Page) -> Result<(), AllocError>
    requires { page < length table.old }
    ensures ok { OnOk result (table.new ≡ slice_set table.old page (record (kept_of table.old page) { put = Some image.now })) }
    ensures err { OnErr result (table.new ≡ table.old) }
    ensures memory { OnErr result ((kept_of table.old page).put ≡ None) }
{
    let slot = &mut table[page];
    slot.put(alloc, image)
}

/// The first page that can be drawn, from a cursor below which none can.
pub fn first_free(table: &[Slot], cursor: usize) -> Option<usize>
    requires { (p : ℕ) → p < cursor → is_free (kept_of table.now p) ≡ false }
    ensures free { IfSome result (λ page. is_free (kept_of table.now page) ≡ true) }
    ensures within { IfSome result (λ page. page < length table.now) }
    ensures first { IfSome result (λ page. (p : ℕ) → p < page → is_free (kept_of table.now p) ≡ false) }
    ensures none { IfNone result ((p : ℕ) → p < length table.now → is_free (kept_of table.now p) ≡ false) }
{
    for page in cursor..table.len() {
        if slot_at(table, page).is_free() {
            return Some(page);
        }
    }
    None
}

/// The table before any call, of so many pages.
pub fn unused_table(alloc: Global, images: &[Page], count: usize) -> Result<Vec<Slot>, AllocError>
    ensures size { IfOk result (λ table. length table.items ≡ count) }
    ensures images { IfOk result (λ _. (p : ℕ) → p < count → IsImage (array_of images.now p)) }
    ensures each { IfOk result (λ table. (p : ℕ) → p < count → kept_of table.items p ≡ unused (is_blank_in (array_of images.now) p)) }
{
    let mut table = Vec::with_capacity(alloc, count)?;
    for page in 0..count {
        table.push(Slot::new(is_blank_at(images, page)))?;
    }
    Ok(table)
}

/// How many pages of an array of so many are blank.
pub fn blanks(images: &[Page], count: usize) -> usize
    requires { count ≡ page_count }
    ensures { result ≡ how_many (is_blank_in (array_of images.now)) page_count }
{
    let mut blanks = 0;
    for page in 0..count {
        if is_blank_at(images, page) {
            blanks += 1;
        }
    }
    blanks
}
