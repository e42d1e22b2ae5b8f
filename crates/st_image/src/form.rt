ghost use Rattle.std.specs.Prelude.{◌≡◌, ◌+◌, ◌*◌, ◌^◌, ◌≤◌, length, IsTrue};
ghost use Rattle.st_image.specs.Parts.{Finds, IsText, RowPage, TextPage, counted};

use crate::head::{Head, head_fault};
use crate::range::first_set;
use crate::rows::rows_fault;
use byteorder::{BigEndian, ByteOrder};

/// The first place at which a page leaves those of so many rows as its front counts.
pub fn row_page_fault(
    bytes: &[u8],
    head: &Head,
    key: usize,
    width: usize,
    child: bool,
    first: bool,
) -> Option<usize>
    requires size { length bytes.now ≡ 4096 }
    requires order { head.now.least ≤ head.now.most }
    requires some { 1 ≤ key }
    requires key { key ≤ 256 }
    requires within { key ≤ width }
    requires width { width ≤ 4096 }
    requires child { IsTrue child → width ≡ key + 4 }
    requires room { head.now.most * width ≤ 4080 }
    requires keys { head.now.most ≤ 256 ^ key }
    ensures { Finds (RowPage head.now.kind head.now.least head.now.most head.now.store head.now.next head.now.last child key width first) bytes.now result }
{
    if let Some(place) = head_fault(&bytes[..16], head) {
        return Some(place);
    }
    match rows_fault(&bytes[16..], key, width, child, first, count_of_page(bytes)) {
        Some(place) => Some(16 + place),
        None => None,
    }
}

/// The first place at which a page leaves those of so many bytes of text as its front counts.
pub fn text_page_fault(bytes: &[u8], head: &Head) -> Option<usize>
    requires size { length bytes.now ≡ 4096 }
    requires order { head.now.least ≤ head.now.most }
    requires room { head.now.most ≤ 4080 }
    ensures { Finds (TextPage head.now.kind head.now.least head.now.most head.now.store head.now.next head.now.last) bytes.now result }
{
    if let Some(place) = head_fault(&bytes[..16], head) {
        return Some(place);
    }
    match text_fault(&bytes[16..], count_of_page(bytes)) {
        Some(place) => Some(16 + place),
        None => None,
    }
}

fn text_fault(body: &[u8], count: usize) -> Option<usize>
    requires size { length body.now ≡ 4080 }
    requires room { count ≤ length body.now }
    ensures { Finds (IsText count) body.now result }
{
    match first_set(&body[count..]) {
        Some(place) => Some(count + place),
        None => None,
    }
}

fn count_of_page(bytes: &[u8]) -> usize
    requires { length bytes.now ≡ 4096 }
    ensures { result ≡ counted bytes.now }
{
    usize::from(BigEndian::read_u16(&bytes[2..]))
}
