//! Two pages of a chain, one behind the other.
ghost use Rattle.std.specs.Prelude.{◌≡◌, ◌↔◌, ◌<◌, ℕ, List, false, length, take, slice_get, Some, IsSome, IsTrue, IfErr, OnOk, OnErr};
ghost use Rattle.st_page.specs.declared.fault.PageFault.TheVariants.{BadPage};
ghost use Rattle.st_image.specs.Fields.{count_of, next_of, rows_of};
ghost use Rattle.st_image.specs.declared.wanted.Wanted.TheVariants as wanted;
ghost use Rattle.st_pages.specs.Calls.{HandsOn, is_of_looking, no_page, only};
ghost use Rattle.st_pages.specs.Reading.{ForEach, OfDamage};
ghost use Rattle.st_store.specs.Stores.{IsPlace, IsRowsOf};
ghost use Rattle.st_store.specs.Chain.{IsChainPage};
ghost use Rattle.st_chain.specs.Walks.{IsAbove, IsNoNext, ImageUpTo, IsBelow};

use st_image::{Page, Wanted};
use st_page::PageFault;
use st_page_rows::row_at;
use st_pages::{Pages, Place, get_wanted};
use std::alloc::Global;

/// What a page of a chain has to be.
pub(crate) fn chain_page(place: Place) -> Wanted
    ensures { result ≡ wanted.Chain place.store place.key place.width }
{
    Wanted::Chain {
        store: place.store,
        key: place.key,
        width: place.width,
    }
}

/// The key of the row at an index of a page.
pub(crate) fn key_at(page: &Page, place: Place, index: usize) -> &[u8]
    requires place { IsPlace place }
    requires sound { IsRowsOf place page.now }
    requires within { index < count_of page.now }
    ensures { (row : List ℕ) × (slice_get (rows_of place.width page.now) index ≡ Some row) × (result.now ≡ take place.key row) × (length result.now ≡ place.key) }
{
    &row_at(page, place.width as usize, index)[..place.key as usize]
}

/// Whether the rows of a page are above those of a page before it.
fn is_above(place: Place, page: &Page, next: &Page) -> bool
    requires place { IsPlace place }
    requires sound { IsRowsOf place page.now }
    requires next_sound { IsRowsOf place next.now }
    ensures { IsTrue result ↔ IsAbove place page.now next.now }
{
    let count = page.count() as usize;
    if next.count() == 0 {
        return false;
    }
    if count == 0 {
        return true;
    }
    key_at(page, place, count - 1) < key_at(next, place, 0)
}

/// Whether a page of a chain goes on up to a key: it is the last page, or its last key isn't below.
pub(crate) fn goes_up_to(place: Place, page: &Page, key: &[u8]) -> bool
    requires place { IsPlace place }
    requires sound { IsRowsOf place page.now }
    requires key { length key.now ≡ place.key }
    ensures up_to { IsTrue result → ImageUpTo place key.now page.now }
    ensures below { result ≡ false → IsBelow place key.now page.now }
{
    if page.next() == 0 {
        return true;
    }
    let count = page.count() as usize;
    count > 0 && key_at(page, place, count - 1) >= key
}

/// Whether a page is one of a chain behind another one.
fn checked(place: Place, page: u32, frame: &Page, next: &Page) -> Result<(), PageFault>
    requires place { IsPlace place }
    requires sound { IsRowsOf place frame.now }
    requires next_sound { IsChainPage place next.now }
    ensures above { OnOk result (IsAbove place frame.now next.now) }
    ensures looks { IfErr result (λ fault. IsTrue (is_of_looking fault)) }
    ensures bad { IfErr result (λ fault. (fault ≡ BadPage page 16) × (IsAbove place frame.now next.now → ⊥)) }
{
    if is_above(place, frame, next) {
        Ok(())
    } else {
        Err(PageFault::BadPage { page, place: 16 })
    }
}

/// Goes from a page of a chain to the one behind it, which is given into the frame. At an error the frame is as it was.
pub(crate) fn next_page<P: Pages>(
    alloc: Global,
    pages: &mut P,
    place: Place,
    frame: &mut Page,
) -> Result<(), PageFault>
    requires place { IsPlace place }
    requires sound { IsRowsOf place frame.old }
    ensures follows { P.follows pages.old pages.new }
    ensures written { (P.attempt pages.new).written ≡ (P.attempt pages.old).written }
    ensures met { HandsOn (P.met pages.old) (P.met pages.new) result }
    ensures looks { IfErr result (λ fault. IsTrue (is_of_looking fault)) }
    ensures asked { P.asked pages.old pages.new (only (next_of frame.old)) no_page 0 }
    ensures image { OnOk result (ForEach (P.attempt pages.old) (P.attempt pages.new) (λ array. array (next_of frame.old) ≡ frame.new)) }
    ensures seen { OnOk result (IsSome ((P.attempt pages.new).seen (next_of frame.old))) }
    ensures sound { OnOk result (IsChainPage place frame.new) }
    ensures above { OnOk result (IsAbove place frame.old frame.new) }
    ensures kept { OnErr result (frame.new ≡ frame.old) }
    ensures bad { IfErr result (OfDamage (λ page at. (page ≡ next_of frame.old)
        × ForEach (P.attempt pages.old) (P.attempt pages.new) (λ array. IsNoNext place frame.old (array page) at))) }
{
    let page = frame.next();
    let mut next = Page::blank();
    match get_wanted(alloc, pages, chain_page(place), page, &mut next) {
        Ok(()) => {}
        Err(fault) => return Err(fault),
    }
    match checked(place, page, frame, &next) {
        Ok(()) => {
            frame.copy_from(&next);
            Ok(())
        }
        Err(fault) => Err(fault),
    }
}
