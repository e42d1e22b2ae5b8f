ghost use Rattle.std.specs.Prelude.{◌≡◌, ◌<◌, [], ℕ, List, IfOk, IfErr};
ghost use Rattle.st_image.specs.Grammar.{IsPage, IsFair};
ghost use Rattle.st_pages.specs.Calls.{HandsOn, no_page, only};
ghost use Rattle.st_pages.specs.Chains.{BreaksAt, is_on_way};
ghost use Rattle.st_image.specs.Prefixes.{IsFirstWrong};
ghost use Rattle.st_pages.specs.Reading.{ForEach, OfDamage};
ghost use Rattle.st_catalog.specs.Reading.{Walked, Stepped};

use crate::gather::Gather;
use st_image::{Page, Wanted};
use st_page::PageFault;
use st_pages::{Pages, get_wanted};
use std::alloc::Global;

/// Takes what one page of a chain has, and answers the page behind it, 0 for none.
fn step<P: Pages, G: Gather>(
    alloc: Global,
    pages: &mut P,
    wanted: Wanted,
    page: u32,
    gather: &mut G,
) -> Result<u32, PageFault>
    requires page { page < 65536 }
    requires fair { IsFair wanted }
    requires sound { (image : List ℕ) → IsPage wanted image → G.sound image }
    ensures follows { P.follows pages.old pages.new }
    ensures written { (P.attempt pages.new).written ≡ (P.attempt pages.old).written }
    ensures met { HandsOn (P.met pages.old) (P.met pages.new) result }
    ensures asked { P.asked pages.old pages.new (only page) no_page 0 }
    ensures stepped { IfOk result (λ next. (image : List ℕ) × ForEach (P.attempt pages.old) (P.attempt pages.new) (λ array. array page ≡ image)
        × Stepped wanted next image (G.told gather.old) (G.told gather.new)) }
    ensures bad { IfErr result (OfDamage (λ q place. (q ≡ page)
        × ForEach (P.attempt pages.old) (P.attempt pages.new) (λ array. IsFirstWrong (IsPage wanted) (array page) place))) }
{
    let mut frame = Page::blank();
    get_wanted(alloc, pages, wanted, page, &mut frame)?;
    match gather.take(&frame) {
        Ok(()) => Ok(frame.next()),
        Err(_) => Err(PageFault::Memory),
    }
}

/// Goes along a chain of pages from the first one on, and gathers what they have. Whether it ends: false where it has more
/// pages than there are.
pub(crate) fn walk<P: Pages, G: Gather>(
    alloc: Global,
    pages: &mut P,
    wanted: Wanted,
    first: u32,
    gather: &mut G,
) -> Result<bool, PageFault>
    requires first { first < 65536 }
    requires fair { IsFair wanted }
    requires sound { (image : List ℕ) → IsPage wanted image → G.sound image }
    requires empty { G.told gather.old [] }
    ensures follows { P.follows pages.old pages.new }
    ensures written { (P.attempt pages.new).written ≡ (P.attempt pages.old).written }
    ensures met { HandsOn (P.met pages.old) (P.met pages.new) result }
    ensures asked { ForEach (P.attempt pages.old) (P.attempt pages.new) (λ array. P.asked pages.old pages.new (is_on_way array first) no_page 0) }
    ensures walked { IfOk result (λ ended. ForEach (P.attempt pages.old) (P.attempt pages.new) (λ array.
        Walked ended wanted array first (G.told gather.new))) }
    ensures bad { IfErr result (OfDamage (λ page place. ForEach (P.attempt pages.old) (P.attempt pages.new) (λ array.
        BreaksAt wanted array first page place))) }
{
    let mut page = first;
    for _ in 0..65536u32 {
        match step(alloc, pages, wanted, page, gather) {
            Ok(0) => return Ok(true),
            Ok(next) => page = next,
            Err(fault) => return Err(fault),
        }
    }
    Ok(false)
}
