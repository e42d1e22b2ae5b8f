//! Calls of pages, one or two in a row.
ghost use Rattle.std.specs.Prelude.{◌≡◌, ◌⊎◌, OnOk, OnErr, IfOk, IfErr, IsSome};
ghost use Rattle.st_pages.specs.Attempt.{wrote};
ghost use Rattle.st_pages.specs.Calls.{HandsOn, no_page, only};
ghost use Rattle.st_pages.specs.Reading.{OfDamage};
ghost use Rattle.st_chain.specs.Changes.{IsDrawn, either_of};

use st_image::Page;
use st_page::PageFault;
use st_pages::{Pages, laws_of_attempts};
use std::alloc::Global;

/// Puts an image of a page.
pub(crate) fn put_one<P: Pages>(
    alloc: Global,
    pages: &mut P,
    page: u32,
    image: &Page,
) -> Result<(), PageFault>
    requires { IsSome ((P.attempt pages.old).seen page) }
    ensures follows { P.follows pages.old pages.new }
    ensures met { HandsOn (P.met pages.old) (P.met pages.new) result }
    ensures asked { P.asked pages.old pages.new no_page (only page) 0 }
    ensures ok { OnOk result (P.attempt pages.new ≡ wrote page image.now (P.attempt pages.old)) }
    ensures err { OnErr result (P.attempt pages.new ≡ P.attempt pages.old) }
    ensures bad { IfErr result (OfDamage (λ q place. ⊥)) }
{
    laws_of_attempts();
    pages.put(alloc, page, image)
}

/// Puts images of two pages, one after the other. At an error neither is put, or the first one.
pub(crate) fn put_both<P: Pages>(
    alloc: Global,
    pages: &mut P,
    page: u32,
    image: &Page,
    second: u32,
    other: &Page,
) -> Result<(), PageFault>
    requires page { IsSome ((P.attempt pages.old).seen page) }
    requires second { IsSome ((P.attempt pages.old).seen second) }
    ensures follows { P.follows pages.old pages.new }
    ensures met { HandsOn (P.met pages.old) (P.met pages.new) result }
    ensures asked { P.asked pages.old pages.new no_page (either_of page second) 0 }
    ensures ok { OnOk result (P.attempt pages.new ≡ wrote second other.now (wrote page image.now (P.attempt pages.old))) }
    ensures err { OnErr result ((P.attempt pages.new ≡ P.attempt pages.old) ⊎ (P.attempt pages.new ≡ wrote page image.now (P.attempt pages.old))) }
    ensures bad { IfErr result (OfDamage (λ q place. ⊥)) }
{
    match put_one(alloc, pages, page, image) {
        Ok(()) => {}
        Err(fault) => return Err(fault),
    }
    put_one(alloc, pages, second, other)
}

/// Draws a page that can stand in a chain: where page 0 is drawn, which stands for none there, it stays blank, and another one
/// is drawn.
pub(crate) fn draw<P: Pages>(alloc: Global, pages: &mut P) -> Result<u32, PageFault>
    ensures follows { P.follows pages.old pages.new }
    ensures written { (P.attempt pages.new).written ≡ (P.attempt pages.old).written }
    ensures met { HandsOn (P.met pages.old) (P.met pages.new) result }
    ensures asked { P.asked pages.old pages.new no_page no_page 2 }
    ensures drawn { IfOk result (λ page. IsDrawn (P.attempt pages.old) (P.attempt pages.new) page) }
    ensures bad { IfErr result (OfDamage (λ q place. ⊥)) }
{
    match pages.fresh(alloc) {
        Ok(page) => {
            if page != 0 {
                return Ok(page);
            }
        }
        Err(fault) => return Err(fault),
    }
    pages.fresh(alloc)
}
