//! The images of an array, behind which stand blank pages.
ghost use Rattle.std.specs.Prelude.{◌≡◌, ◌==◌, length, not, true};
ghost use Rattle.std.specs.List.{list_all};
ghost use Rattle.std.specs.Str.{bytes_eq};
ghost use Rattle.st_image.specs.Bytes.{IsBytes};
ghost use Rattle.st_image.specs.Fields.{blank};
ghost use Rattle.st_pages.specs.Attempt.{IsImage, image_or};
ghost use Rattle.st_memory_pages.specs.Slots.{Kept, array_of, is_changed};

use crate::slot::Slot;
use st_image::Page;

/// What the type of bytes tells of each of them.
fn are_bytes(bytes: &[u8])
    ensures { IsBytes bytes.now }
{}

/// The bytes of a page.
pub fn bytes_of(page: &Page) -> &[u8]
    ensures bytes { result.now ≡ page.now }
    ensures size { length result.now ≡ 4096 }
    ensures image { IsImage page.now }
{
    let bytes = page.bytes();
    are_bytes(bytes);
    bytes
}

fn are_zero(bytes: &[u8]) -> bool
    ensures { result ≡ list_all (λ byte. byte == 0) bytes.now }
{
    bytes.iter().all(|byte| *byte == 0)
}

/// Whether a page is blank.
pub fn is_blank(page: &Page) -> bool
    ensures image { IsImage page.now }
    ensures blank { result ≡ bytes_eq page.now blank }
{
    are_zero(bytes_of(page))
}

fn differ(page: &Page, other: &Page) -> bool
    ensures image { IsImage other.now }
    ensures differ { result ≡ not (bytes_eq page.now other.now) }
{
    page.bytes() != bytes_of(other)
}

/// Whether the array has a blank page in a place.
pub fn is_blank_at(images: &[Page], page: usize) -> bool
    ensures image { IsImage (array_of images.now page) }
    ensures blank { result ≡ bytes_eq (array_of images.now page) blank }
{
    match images.get(page) {
        Some(image) => is_blank(image),
        None => true,
    }
}

/// Whether an image is another one than the array has in a place.
pub fn differs_at(images: &[Page], page: usize, image: &Page) -> bool
    ensures image { IsImage image.now }
    ensures differs { result ≡ not (bytes_eq (array_of images.now page) image.now) }
{
    match images.get(page) {
        Some(first) => differ(first, image),
        None => !is_blank(image),
    }
}

/// Whether a page that was seen was changed.
pub fn is_changed(images: &[Page], page: usize, slot: &Slot) -> bool
    requires { slot.now.seen ≡ true }
    ensures { result ≡ is_changed (array_of images.now page) slot.now }
{
    match slot.image() {
        Some(image) => differs_at(images, page, image),
        None => false,
    }
}

fn copy_first(images: &[Page], page: usize, frame: &mut Page)
    ensures { frame.new ≡ array_of images.now page }
{
    match images.get(page) {
        Some(image) => frame.copy_from(image),
        None => *frame = Page::blank(),
    }
}

/// Copies what is known of a page into a frame: what was put last, else what the array has.
pub fn copy_known(images: &[Page], page: usize, slot: &Slot, frame: &mut Page)
    ensures { frame.new ≡ image_or (array_of images.now page) slot.now.put }
{
    match slot.image() {
        Some(last) => frame.copy_from(last),
        None => copy_first(images, page, frame),
    }
}
