ghost use Rattle.std.specs.Prelude.{◌≡◌, ◌∷◌, [], ◌++◌, ◌≤◌, ◌*◌, ℕ, List, OnOk, length, map};
ghost use Rattle.st_image.specs.Fields.{rows_of, pieces};
ghost use Rattle.st_image.specs.Grammar.{IsPage};
ghost use Rattle.st_image.specs.declared.wanted.Wanted.TheVariants as wanted;
ghost use Rattle.st_catalog.specs.Catalog.{piece_of, root_of};

use crate::root::Root;
use byteorder::{BigEndian, ByteOrder};
use st_image::Page;
use std::alloc::{AllocError, Global};

/// What is gathered from the pages of a chain.
pub(crate) trait Gather {
    // What holds of a page of which something is gathered.
    ghost sound: { List ℕ → Type 0 };

    // What was gathered is that of these pages.
    ghost told: { Self → List (List ℕ) → Type 0 };

    /// Takes what a page has.
    fn take(&mut self, page: &Page) -> Result<(), AllocError>
        requires { sound page.now }
        ensures { OnOk result ((images : List (List ℕ)) → told self.old images → told self.new (images ++ page.now ∷ [])) };
}

/// How many bytes are gathered at least, where there are more: no schema has as many.
pub(crate) const MOST_BYTES: usize = 1049350;

/// The bytes of the schema.
#[derive(Drop)]
pub(crate) struct SchemaBytes {
    pub(crate) bytes: Vec<u8>,
}

impl Gather for SchemaBytes {
    ghost use Rattle.std.specs.Prelude.{List, ℕ};
    ghost use Rattle.st_image.specs.Grammar.{IsPage};
    ghost use Rattle.st_image.specs.declared.wanted.Wanted.TheVariants as wanted;
    ghost use Rattle.st_catalog.specs.Catalog.{bytes_in};
    ghost use Rattle.st_catalog.specs.Reading.{IsUpTo};

    ghost sound = { IsPage wanted.Schema };

    ghost told = { λ it images. IsUpTo 1049350 it.bytes.items (bytes_in images) };

    fn take(&mut self, page: &Page) -> Result<(), AllocError> {
        if self.bytes.len() > MOST_BYTES {
            return Ok(());
        }
        let piece = piece_of(page);
        Ok(self.bytes.extend_from_slice(piece)?)
    }
}

/// How many roots are gathered at least, where there are more: no schema has as many stores.
pub(crate) const MOST_ROOTS: usize = 262204;

/// The roots.
#[derive(Drop)]
pub(crate) struct Roots {
    pub(crate) roots: Vec<Root>,
}

impl Gather for Roots {
    ghost use Rattle.std.specs.Prelude.{List, ℕ, ◌<◌};
    ghost use Rattle.std.specs.List.{All};
    ghost use Rattle.st_image.specs.Grammar.{IsPage};
    ghost use Rattle.st_image.specs.declared.wanted.Wanted.TheVariants as wanted;
    ghost use Rattle.st_catalog.specs.Catalog.{roots_in};
    ghost use Rattle.st_catalog.specs.Reading.{IsUpTo};

    ghost sound = { IsPage wanted.Roots };

    ghost told = { λ it images. IsUpTo 262204 it.roots.items (roots_in images) };

    fn take(&mut self, page: &Page) -> Result<(), AllocError> {
        if self.roots.len() > MOST_ROOTS {
            return Ok(());
        }
        push_roots(page, &mut self.roots)
    }
}

/// Adds the roots in a page.
fn push_roots(page: &Page, roots: &mut Vec<Root>) -> Result<(), AllocError>
    requires { IsPage wanted.Roots page.now }
    ensures { OnOk result (roots.new.items ≡ roots.old.items ++ map root_of (rows_of 8 page.now)) }
{
    let body = &page.bytes()[16..];
    push_rows(body, page.count() as usize, roots)
}

/// Adds the roots in so many rows.
fn push_rows(body: &[u8], count: usize, roots: &mut Vec<Root>) -> Result<(), AllocError>
    requires { 8 * count ≤ length body.now }
    ensures { OnOk result (roots.new.items ≡ roots.old.items ++ map root_of (pieces count 8 body.now)) }
{
    for index in 0..count {
        let row = &body[8 * index..8 * index + 8];
        roots.push(root_of(row))?;
    }
    Ok(())
}

/// The root in a row.
fn root_of(row: &[u8]) -> Root
    requires { length row.now ≡ 8 }
    ensures { result ≡ root_of row.now }
{
    Root {
        store: BigEndian::read_u32(row),
        first: BigEndian::read_u32(&row[4..]),
    }
}

/// The piece of the schema in a page.
fn piece_of(page: &Page) -> &[u8]
    requires { IsPage wanted.Schema page.now }
    ensures { result.now ≡ piece_of page.now }
{
    let body = &page.bytes()[16..];
    &body[..page.count() as usize]
}
