//! Pages, and what is wanted of them.
ghost use Rattle.std.specs.Prelude.{◌≡◌, length};
ghost use Rattle.st_image.specs.Grammar.{IsFair};

use crate::given::{is_filled, wanted_of};
use crate::told::wrong;
use st_image::{Page, Wanted, check_page};
use std::alloc::{AllocError, Global};

/// Whether a page is what is wanted of it: the front says what that is, and how the page begins, and the text what else it
/// is.
pub fn page_answer(alloc: Global, front: &str, text: &str) -> Result<String, AllocError> {
    let mut words = front.split_whitespace();
    let Some(wanted) = wanted_of(&mut words) else {
        return String::from_str(alloc, " nothing wanted");
    };
    let mut bytes = [0; 4096];
    if !is_filled(&mut bytes, words) || !is_filled(&mut bytes, text.split_whitespace()) {
        return String::from_str(alloc, " no page");
    }
    checked(alloc, wanted, &bytes)
}

fn checked(alloc: Global, wanted: Wanted, bytes: &[u8]) -> Result<String, AllocError>
    requires fair { IsFair wanted }
    requires size { length bytes.now ≡ 4096 }
{
    let mut page = Page::blank();
    page.write(0, bytes);
    match check_page(&page, wanted) {
        Ok(()) => String::from_str(alloc, " sound"),
        Err(place) => wrong(alloc, place),
    }
}
