//! The walk along a chain up to a key.
ghost use Rattle.std.specs.Prelude.{◌≡◌, ◌<◌, length, IsSome, IsTrue, IfSome, IfOk, IfErr, OnOk};
ghost use Rattle.st_pages.specs.Calls.{HandsOn, is_of_looking, no_page};
ghost use Rattle.st_pages.specs.Reading.{ForEach, OfDamage};
ghost use Rattle.st_store.specs.Stores.{IsPlace};
ghost use Rattle.st_store.specs.Chain.{IsChainPage, IsBadPage, is_on_chain};
ghost use Rattle.st_chain.specs.Walks.{IsLocated};

use crate::above::{chain_page, goes_up_to, next_page};
use st_image::Page;
use st_page::PageFault;
use st_pages::{Pages, Place, get_wanted};
use std::alloc::Global;

/// The page on which the row with a key stands or would stand, and the one in front of it in the chain.
#[derive(Clone, Copy)]
pub(crate) struct Spot {
    pub(crate) page: u32,
    pub(crate) previous: Option<u32>,
}

/// Walks along a chain to the page on which the row with a key stands or would stand, and gives its image into the frame.
pub(crate) fn locate<P: Pages>(
    alloc: Global,
    pages: &mut P,
    place: Place,
    key: &[u8],
    frame: &mut Page,
) -> Result<Spot, PageFault>
    requires place { IsPlace place }
    requires key { length key.now ≡ place.key }
    ensures follows { P.follows pages.old pages.new }
    ensures written { (P.attempt pages.new).written ≡ (P.attempt pages.old).written }
    ensures met { HandsOn (P.met pages.old) (P.met pages.new) result }
    ensures looks { IfErr result (λ fault. IsTrue (is_of_looking fault)) }
    ensures asked { ForEach (P.attempt pages.old) (P.attempt pages.new) (λ array. P.asked pages.old pages.new (is_on_chain place array) no_page 0) }
    ensures sound { OnOk result (IsChainPage place frame.new) }
    ensures located { IfOk result (λ spot. ForEach (P.attempt pages.old) (P.attempt pages.new) (λ array. IsLocated place array key.now spot frame.new)) }
    ensures seen { IfOk result (λ spot. IsSome ((P.attempt pages.new).seen spot.page)) }
    ensures page { IfOk result (λ spot. spot.page < 65536) }
    ensures reached { IfOk result (λ spot. ForEach (P.attempt pages.old) (P.attempt pages.new) (λ array. IsTrue (is_on_chain place array spot.page))) }
    ensures front { IfOk result (λ spot. IfSome spot.previous (λ page. page < 65536)) }
    ensures front_reached { IfOk result (λ spot. IfSome spot.previous (λ page. ForEach (P.attempt pages.old) (P.attempt pages.new) (λ array. IsTrue (is_on_chain place array page)))) }
    ensures bad { IfErr result (OfDamage (λ page at. ForEach (P.attempt pages.old) (P.attempt pages.new) (λ array. IsBadPage place array page at))) }
{
    match get_wanted(alloc, pages, chain_page(place), place.first, frame) {
        Ok(()) => {}
        Err(fault) => return Err(fault),
    }
    let mut spot = Spot {
        page: place.first,
        previous: None,
    };
    while !goes_up_to(place, frame, key) {
        let page = frame.next();
        match next_page(alloc, pages, place, frame) {
            Ok(()) => {}
            Err(fault) => return Err(fault),
        }
        spot = Spot {
            page,
            previous: Some(spot.page),
        };
    }
    Ok(spot)
}
