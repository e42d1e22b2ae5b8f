//! One page of a new database.
ghost use Rattle.std.specs.Prelude.{◌≡◌, ◌≤◌, length};
ghost use Rattle.st_new_database.specs.New.{page_bytes, first_page};

use st_image::Page;

/// How many bytes of a page stand behind its fields.
pub const BODY_SIZE: usize = 4080;

/// A page of the schema's chain or of the roots': its kind, its count, the page behind it, and a piece of at most 4,080
/// bytes.
pub fn chain_page(kind: u8, count: u16, next: u32, piece: &[u8]) -> Page
    requires { length piece.now ≤ 4080 }
    ensures { result ≡ page_bytes kind count next piece.now }
{
    let mut page = Page::blank();
    page.set_kind(kind);
    page.set_count(count);
    page.set_next(next);
    page.write(16, piece);
    page
}

/// The first page of a store without rows.
pub fn first_page(store: u32) -> Page
    ensures { result ≡ first_page store }
{
    let mut page = Page::blank();
    page.set_kind(2);
    page.set_store(store);
    page
}
