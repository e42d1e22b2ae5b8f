//! The last serial that was given out of a type: it stands in the first page of the type's extent.
ghost use Rattle.std.specs.Prelude.{◌≡◌, ◌<◌, ℕ, IsTrue, OnOk, OnErr, IfOk, IfErr};
ghost use Rattle.st_image.specs.Grammar.{IsPage, AreFair};
ghost use Rattle.st_image.specs.Prefixes.{IsFirstWrong};
ghost use Rattle.st_image.specs.declared.wanted.Wanted.TheVariants as wanted;
ghost use Rattle.st_pages.specs.Attempt.{Array, Agrees, may_put, over};
ghost use Rattle.st_pages.specs.Calls.{HandsOn, is_of_looking, no_page, only};
ghost use Rattle.st_pages.specs.Reading.{ForEach, OfDamage};
ghost use Rattle.st_store.specs.Stores.{HasPutStores, any_page};
ghost use Rattle.st_catalog.specs.Reading.{HasSerial, SetsSerial};

use st_image::{Page, Wanted};
use st_page::PageFault;
use st_pages::{Pages, Place, get_wanted, laws_of_attempts};
use std::alloc::Global;

/// The grammar of a store's first page.
fn first_page(place: Place) -> Wanted
    ensures { result ≡ wanted.Chain place.store place.key place.width }
{
    Wanted::Chain {
        store: place.store,
        key: place.key,
        width: place.width,
    }
}

/// The last serial that was given out of the type whose extent has this place.
///
/// # Errors
/// `BadPage` where the extent's first page isn't one; otherwise what a call of `get` answered.
pub fn last_serial<P: Pages>(alloc: Global, pages: &mut P, place: Place) -> Result<u32, PageFault>
    requires first { place.first < 65536 }
    requires fair { AreFair place.key place.width }
    ensures follows { P.follows pages.old pages.new }
    ensures written { (P.attempt pages.new).written ≡ (P.attempt pages.old).written }
    ensures met { HandsOn (P.met pages.old) (P.met pages.new) result }
    ensures looks { IfErr result (λ fault. IsTrue (is_of_looking fault)) }
    ensures asked { P.asked pages.old pages.new (only place.first) no_page 0 }
    ensures serial { IfOk result (λ serial. ForEach (P.attempt pages.old) (P.attempt pages.new) (HasSerial place serial)) }
    ensures bad { IfErr result (OfDamage (λ q at. (q ≡ place.first)
        × ForEach (P.attempt pages.old) (P.attempt pages.new) (λ array. IsFirstWrong (IsPage (wanted.Chain place.store place.key place.width)) (array place.first) at))) }
{
    let mut frame = Page::blank();
    let wanted = first_page(place);
    match get_wanted(alloc, pages, wanted, place.first, &mut frame) {
        Ok(()) => Ok(frame.last_serial()),
        Err(fault) => Err(fault),
    }
}

/// Sets the last serial of the type whose extent has this place. The extent's rows stay, by the laws of pages.
///
/// # Errors
/// `BadPage` where the extent's first page isn't one; otherwise what a call of `get` or `put` answered. Nothing is changed
/// then.
pub fn set_last_serial<P: Pages>(
    alloc: Global,
    pages: &mut P,
    place: Place,
    serial: u32,
) -> Result<(), PageFault>
    requires extent { place.store < 65536 }
    requires first { place.first < 65536 }
    requires fair { AreFair place.key place.width }
    ensures follows { P.follows pages.old pages.new }
    ensures met { HandsOn (P.met pages.old) (P.met pages.new) result }
    ensures asked { P.asked pages.old pages.new (only place.first) (only place.first) 0 }
    ensures kinds { HasPutStores (P.attempt pages.old) → P.asked pages.old pages.new any_page (may_put (P.attempt pages.new)) 0 }
    ensures set { OnOk result ((array : Array) → Agrees (P.attempt pages.new) array →
        SetsSerial place serial (over (P.attempt pages.old) array) (over (P.attempt pages.new) array)) }
    ensures kept { OnErr result ((P.attempt pages.new).written ≡ (P.attempt pages.old).written) }
    ensures bad { IfErr result (OfDamage (λ q at. (q ≡ place.first)
        × ForEach (P.attempt pages.old) (P.attempt pages.new) (λ array. IsFirstWrong (IsPage (wanted.Chain place.store place.key place.width)) (array place.first) at))) }
{
    laws_of_attempts();
    let mut frame = Page::blank();
    let wanted = first_page(place);
    match get_wanted(alloc, pages, wanted, place.first, &mut frame) {
        Ok(()) => {}
        Err(fault) => return Err(fault),
    }
    frame.set_last_serial(serial);
    pages.put(alloc, place.first, &frame)
}
