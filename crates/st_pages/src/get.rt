ghost use Rattle.std.specs.Prelude.{◌≡◌, ◌<◌, ℕ, IsSome, IsTrue, OnOk, IfErr};
ghost use Rattle.st_image.specs.Grammar.{IsPage, IsFair};
ghost use Rattle.st_image.specs.Prefixes.{IsFirstWrong};
ghost use Rattle.st_page.specs.declared.fault.PageFault.TheVariants.{BadPage};
ghost use Rattle.st_pages.specs.Calls.{HandsOn, is_of_looking, no_page, only};
ghost use Rattle.st_pages.specs.Reading.{ForEach, OfDamage};

use crate::laws::laws_of_attempts;
use crate::pages::Pages;
use st_image::{Page, Wanted, check_page};
use st_page::PageFault;
use std::alloc::Global;

/// Copies the image of a page into a frame: what each array that agrees with what was seen has there, under what was written.
///
/// # Errors
/// Only what `get` answered; never `BadPage`.
pub fn get_image<P: Pages>(
    alloc: Global,
    pages: &mut P,
    page: u32,
    frame: &mut Page,
) -> Result<(), PageFault>
    requires { page < 65536 }
    ensures follows { P.follows pages.old pages.new }
    ensures written { (P.attempt pages.new).written ≡ (P.attempt pages.old).written }
    ensures met { HandsOn (P.met pages.old) (P.met pages.new) result }
    ensures looks { IfErr result (λ fault. IsTrue (is_of_looking fault)) }
    ensures asked { P.asked pages.old pages.new (only page) no_page 0 }
    ensures image { OnOk result (ForEach (P.attempt pages.old) (P.attempt pages.new) (λ array. array page ≡ frame.new)) }
    ensures seen { OnOk result (IsSome ((P.attempt pages.new).seen page)) }
    ensures sound { IfErr result (OfDamage (λ q place. ⊥)) }
{
    laws_of_attempts();
    pages.get(alloc, page, frame)
}

/// Whether a page is what is wanted.
fn checked(page: u32, frame: &Page, wanted: Wanted) -> Result<(), PageFault>
    requires { IsFair wanted }
    ensures ok { OnOk result (IsPage wanted frame.now) }
    ensures looks { IfErr result (λ fault. IsTrue (is_of_looking fault)) }
    ensures bad { IfErr result (λ fault. (place : ℕ) × (fault ≡ BadPage page place) × IsFirstWrong (IsPage wanted) frame.now place) }
{
    match check_page(frame, wanted) {
        Ok(()) => Ok(()),
        Err(place) => Err(PageFault::BadPage { page, place }),
    }
}

/// Copies the image of a page, which is what is wanted, into a frame.
///
/// # Errors
/// `BadPage` where the page isn't what is wanted, with the first place at which it leaves that; otherwise what `get` answered.
pub fn get_wanted<P: Pages>(
    alloc: Global,
    pages: &mut P,
    wanted: Wanted,
    page: u32,
    frame: &mut Page,
) -> Result<(), PageFault>
    requires page { page < 65536 }
    requires fair { IsFair wanted }
    ensures follows { P.follows pages.old pages.new }
    ensures written { (P.attempt pages.new).written ≡ (P.attempt pages.old).written }
    ensures met { HandsOn (P.met pages.old) (P.met pages.new) result }
    ensures looks { IfErr result (λ fault. IsTrue (is_of_looking fault)) }
    ensures asked { P.asked pages.old pages.new (only page) no_page 0 }
    ensures image { OnOk result (ForEach (P.attempt pages.old) (P.attempt pages.new) (λ array. array page ≡ frame.new)) }
    ensures seen { OnOk result (IsSome ((P.attempt pages.new).seen page)) }
    ensures wanted { OnOk result (IsPage wanted frame.new) }
    ensures bad { IfErr result (OfDamage (λ q place. (q ≡ page)
        × ForEach (P.attempt pages.old) (P.attempt pages.new) (λ array. IsFirstWrong (IsPage wanted) (array page) place))) }
{
    get_image(alloc, pages, page, frame)?;
    checked(page, frame, wanted)
}
