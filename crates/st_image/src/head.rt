ghost use Rattle.std.specs.Prelude.{◌≡◌, ◌≤◌, length};
ghost use Rattle.st_image.specs.Parts.{Finds, IsHead};

use crate::range::{outside_16, outside_32};

/// What may stand in front of a page's body.
#[derive(Clone, Copy)]
pub struct Head {
    /// Its kind.
    pub kind: u8,
    /// The least that it may count.
    pub least: u16,
    /// The most that it may count.
    pub most: u16,
    /// Its store.
    pub store: u32,
    /// The greatest page that may be behind it.
    pub next: u32,
    /// The greatest last serial that it may have.
    pub last: u32,
}

/// The first place at which bytes leave what may stand in front of a page's body.
pub fn head_fault(bytes: &[u8], head: &Head) -> Option<usize>
    requires size { length bytes.now ≡ 16 }
    requires order { head.now.least ≤ head.now.most }
    ensures { Finds (IsHead head.now.kind head.now.least head.now.most head.now.store head.now.next head.now.last) bytes.now result }
{
    let kind = u16::from(head.kind) * 256;
    if let Some(place) = outside_16(kind, kind, &bytes[..2]) {
        return Some(place);
    }
    if let Some(place) = outside_16(head.least, head.most, &bytes[2..4]) {
        return Some(2 + place);
    }
    if let Some(place) = outside_32(head.store, head.store, &bytes[4..8]) {
        return Some(4 + place);
    }
    if let Some(place) = outside_32(0, head.next, &bytes[8..12]) {
        return Some(8 + place);
    }
    if let Some(place) = outside_32(0, head.last, &bytes[12..]) {
        return Some(12 + place);
    }
    None
}
