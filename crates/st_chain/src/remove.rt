//! How a row is taken out of a page of a chain.
ghost use Rattle.std.specs.Prelude.{◌≡◌, ◌<◌, ◌⊎◌, length, false, None, OnOk, IfOk, IfErr, IfSome, IsSome};
ghost use Rattle.st_image.specs.Fields.{next_of, rows_of};
ghost use Rattle.st_pages.specs.Calls.{HandsOn, no_page, only};
ghost use Rattle.st_pages.specs.Reading.{OfDamage};
ghost use Rattle.st_store.specs.Rows.{row_with};
ghost use Rattle.st_store.specs.Stores.{ForBoth, IsPlace, IsSame, KeepNumbers};
ghost use Rattle.st_store.specs.Chain.{IsChainPage};
ghost use Rattle.st_chain.specs.Changes.{IsGone, IsKept, IsTakenOut, IsUnlinked, OfNoOther, either_of, is_previous, spot_or_previous};

use crate::calls::{put_both, put_one};
use crate::walk::Spot;
use st_image::Page;
use st_page::PageFault;
use st_page_rows::{remove_row, search};
use st_pages::{Pages, Place, get_image};
use std::alloc::Global;

/// Takes a page out of a chain: the one in front of it names the one behind it, and it is blank.
fn unlink<P: Pages>(
    alloc: Global,
    pages: &mut P,
    previous: u32,
    page: u32,
    next: u32,
) -> Result<(), PageFault>
    requires previous { previous < 65536 }
    requires seen { IsSome ((P.attempt pages.old).seen page) }
    ensures follows { P.follows pages.old pages.new }
    ensures met { HandsOn (P.met pages.old) (P.met pages.new) result }
    ensures asked { P.asked pages.old pages.new (only previous) (either_of previous page) 0 }
    ensures put { OnOk result (IsSome ((P.attempt pages.new).written page)) }
    ensures unlinked { OnOk result (ForBoth (P.attempt pages.old) (P.attempt pages.new) (λ before after. IsUnlinked before after previous page next)) }
    ensures numbers { ForBoth (P.attempt pages.old) (P.attempt pages.new) (λ before after. KeepNumbers (P.attempt pages.old) (P.attempt pages.new) before after) }
    ensures bad { IfErr result (OfDamage (λ q place. ⊥)) }
{
    let mut frame = Page::blank();
    match get_image(alloc, pages, previous, &mut frame) {
        Ok(()) => {}
        Err(fault) => return Err(fault),
    }
    frame.set_next(next);
    put_both(alloc, pages, previous, &frame, page, &Page::blank())
}

/// Puts a page of which a row was taken out; where it has no more, and isn't the first one, it is taken out of its chain.
fn leave<P: Pages>(alloc: Global, pages: &mut P, spot: Spot, frame: &Page) -> Result<(), PageFault>
    requires previous { IfSome spot.previous (λ page. page < 65536) }
    requires seen { IsSome ((P.attempt pages.old).seen spot.page) }
    ensures follows { P.follows pages.old pages.new }
    ensures met { HandsOn (P.met pages.old) (P.met pages.new) result }
    ensures asked { P.asked pages.old pages.new (is_previous spot) (spot_or_previous spot) 0 }
    ensures put { OnOk result (IsSome ((P.attempt pages.new).written spot.page)) }
    ensures left { OnOk result (ForBoth (P.attempt pages.old) (P.attempt pages.new) (λ before after.
        IsKept before after spot frame.now ⊎ IsGone before after spot frame.now)) }
    ensures numbers { ForBoth (P.attempt pages.old) (P.attempt pages.new) (λ before after. OfNoOther frame.now (before spot.page) → KeepNumbers (P.attempt pages.old) (P.attempt pages.new) before after) }
    ensures bad { IfErr result (OfDamage (λ q place. ⊥)) }
{
    match spot.previous {
        Some(previous) => {
            if frame.count() == 0 {
                unlink(alloc, pages, previous, spot.page, frame.next())
            } else {
                put_one(alloc, pages, spot.page, frame)
            }
        }
        None => put_one(alloc, pages, spot.page, frame),
    }
}

/// Takes the row with a key out of the page of a chain on which it stands or would stand; whether there was one. Where there
/// was none the page is put as it is.
pub(crate) fn take_out<P: Pages>(
    alloc: Global,
    pages: &mut P,
    place: Place,
    spot: Spot,
    frame: &mut Page,
    key: &[u8],
) -> Result<bool, PageFault>
    requires place { IsPlace place }
    requires sound { IsChainPage place frame.old }
    requires key { length key.now ≡ place.key }
    requires previous { IfSome spot.previous (λ page. page < 65536) }
    requires seen { IsSome ((P.attempt pages.old).seen spot.page) }
    ensures follows { P.follows pages.old pages.new }
    ensures met { HandsOn (P.met pages.old) (P.met pages.new) result }
    ensures asked { P.asked pages.old pages.new (is_previous spot) (spot_or_previous spot) 0 }
    ensures alone { IfOk result (λ was. was ≡ false → P.asked pages.old pages.new no_page (only spot.page) 0) }
    ensures put { OnOk result (IsSome ((P.attempt pages.new).written spot.page)) }
    ensures taken { IfOk result (λ was. ForBoth (P.attempt pages.old) (P.attempt pages.new) (λ before after. before spot.page ≡ frame.old →
        IsTakenOut place before after spot frame.old key.now was)) }
    ensures same { row_with place.key key.now (rows_of place.width frame.old) ≡ None →
        ForBoth (P.attempt pages.old) (P.attempt pages.new) (λ before after. before spot.page ≡ frame.old → IsSame before after) }
    ensures numbers { ForBoth (P.attempt pages.old) (P.attempt pages.new) (λ before after. before spot.page ≡ frame.old → KeepNumbers (P.attempt pages.old) (P.attempt pages.new) before after) }
    ensures bad { IfErr result (OfDamage (λ q place. ⊥)) }
{
    let width = place.width as usize;
    match search(frame, width, key) {
        Ok(index) => {
            remove_row(frame, width, index);
            match leave(alloc, pages, spot, frame) {
                Ok(()) => Ok(true),
                Err(fault) => Err(fault),
            }
        }
        Err(_) => match put_one(alloc, pages, spot.page, frame) {
            Ok(()) => Ok(false),
            Err(fault) => Err(fault),
        },
    }
}
