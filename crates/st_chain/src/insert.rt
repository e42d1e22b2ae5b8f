//! How a row is put into a page of a chain.
ghost use Rattle.std.specs.Prelude.{◌≡◌, ◌+◌, ◌*◌, ◌<◌, ◌≤◌, ◌⊎◌, ◌∷◌, ◌++◌, length, take, drop, slice_get, is_some, Some, OnOk, OnErr, IfOk, IfErr, IsSome, IsTrue};
ghost use Rattle.st_image.specs.Fields.{kind_of, count_of, rows_of};
ghost use Rattle.st_page_rows.specs.PageRows.{Laid};
ghost use Rattle.st_pages.specs.Attempt.{wrote};
ghost use Rattle.st_pages.specs.Calls.{HandsOn, no_page, only};
ghost use Rattle.st_pages.specs.Reading.{OfDamage};
ghost use Rattle.st_store.specs.Rows.{row_with};
ghost use Rattle.st_store.specs.Stores.{ForBoth, IsPlace, IsSame, KeepNumbers, drew_between};
ghost use Rattle.st_store.specs.Chain.{IsChainPage};
ghost use Rattle.st_chain.specs.Changes.{IsEdit, IsMade, IsParted, IsPutIn, IsSplit, page_or_drawn};

use crate::calls::{draw, put_both, put_one};
use st_image::Page;
use st_page::PageFault;
use st_page_rows::{insert_row, replace_row, search, split_off};
use st_pages::{Pages, Place};
use std::alloc::Global;

/// Puts a row into a full page by way of another page, which is then behind it, and is given. A row behind all others goes
/// alone; else each page gets half of the rows.
fn parted(page: &mut Page, width: usize, index: usize, row: &[u8]) -> Page
    requires laid { Laid width page.old }
    requires within { index ≤ count_of page.old }
    requires wide { length row.now ≡ width }
    requires short { width ≤ 1000 }
    requires full { 4080 < (count_of page.old + 1) * width }
    ensures { IsParted width page.old page.new result (take index (rows_of width page.old) ++ row.now ∷ drop index (rows_of width page.old)) }
{
    let count = page.count() as usize;
    let cut = if index == count { count } else { count / 2 };
    let mut other = split_off(page, width, cut);
    if index < cut {
        insert_row(page, width, index, row);
    } else {
        insert_row(&mut other, width, index - cut, row);
    }
    other
}

/// Puts a row into a full page of a chain, which shares its rows with a page that is drawn.
fn split<P: Pages>(
    alloc: Global,
    pages: &mut P,
    place: Place,
    page: u32,
    frame: &mut Page,
    index: usize,
    row: &[u8],
) -> Result<(), PageFault>
    requires place { IsPlace place }
    requires laid { Laid place.width frame.old }
    requires kind { kind_of frame.old ≡ 2 }
    requires within { index ≤ count_of frame.old }
    requires wide { length row.now ≡ place.width }
    requires full { 4080 < (count_of frame.old + 1) * place.width }
    requires seen { IsSome ((P.attempt pages.old).seen page) }
    ensures follows { P.follows pages.old pages.new }
    ensures met { HandsOn (P.met pages.old) (P.met pages.new) result }
    ensures asked { P.asked pages.old pages.new no_page (page_or_drawn (P.attempt pages.old) (P.attempt pages.new) page) 2 }
    ensures put { OnOk result (IsSome ((P.attempt pages.new).written page)) }
    ensures split { OnOk result (ForBoth (P.attempt pages.old) (P.attempt pages.new) (λ before after. before page ≡ frame.old →
        IsSplit place (drew_between (P.attempt pages.old) (P.attempt pages.new)) before after page frame.old (take index (rows_of place.width frame.old) ++ row.now ∷ drop index (rows_of place.width frame.old)))) }
    ensures numbers { ForBoth (P.attempt pages.old) (P.attempt pages.new) (λ before after. before page ≡ frame.old → KeepNumbers (P.attempt pages.old) (P.attempt pages.new) before after) }
    ensures bad { IfErr result (OfDamage (λ q place. ⊥)) }
{
    let drawn = match draw(alloc, pages) {
        Ok(drawn) => drawn,
        Err(fault) => return Err(fault),
    };
    let other = parted(frame, place.width as usize, index, row);
    frame.set_next(drawn);
    put_both(alloc, pages, drawn, &other, page, frame)
}

/// Puts a row into a page of a chain, at an index.
fn add<P: Pages>(
    alloc: Global,
    pages: &mut P,
    place: Place,
    page: u32,
    frame: &mut Page,
    index: usize,
    row: &[u8],
) -> Result<(), PageFault>
    requires place { IsPlace place }
    requires laid { Laid place.width frame.old }
    requires kind { kind_of frame.old ≡ 2 }
    requires within { index ≤ count_of frame.old }
    requires wide { length row.now ≡ place.width }
    requires seen { IsSome ((P.attempt pages.old).seen page) }
    ensures follows { P.follows pages.old pages.new }
    ensures met { HandsOn (P.met pages.old) (P.met pages.new) result }
    ensures asked { P.asked pages.old pages.new no_page (page_or_drawn (P.attempt pages.old) (P.attempt pages.new) page) 2 }
    ensures put { OnOk result (IsSome ((P.attempt pages.new).written page)) }
    ensures added { OnOk result (ForBoth (P.attempt pages.old) (P.attempt pages.new) (λ before after. before page ≡ frame.old →
        IsEdit place (drew_between (P.attempt pages.old) (P.attempt pages.new)) before after page frame.old (take index (rows_of place.width frame.old) ++ row.now ∷ drop index (rows_of place.width frame.old))
        ⊎ IsSplit place (drew_between (P.attempt pages.old) (P.attempt pages.new)) before after page frame.old (take index (rows_of place.width frame.old) ++ row.now ∷ drop index (rows_of place.width frame.old)))) }
    ensures numbers { ForBoth (P.attempt pages.old) (P.attempt pages.new) (λ before after. before page ≡ frame.old → KeepNumbers (P.attempt pages.old) (P.attempt pages.new) before after) }
    ensures bad { IfErr result (OfDamage (λ q place. ⊥)) }
{
    let width = place.width as usize;
    if (frame.count() as usize + 1) * width <= 4080 {
        insert_row(frame, width, index, row);
        put_one(alloc, pages, page, frame)
    } else {
        split(alloc, pages, place, page, frame, index, row)
    }
}

/// Puts a row in place of the one at an index of a page.
fn replace<P: Pages>(
    alloc: Global,
    pages: &mut P,
    place: Place,
    page: u32,
    frame: &mut Page,
    index: usize,
    row: &[u8],
) -> Result<(), PageFault>
    requires laid { Laid place.width frame.old }
    requires within { index < count_of frame.old }
    requires wide { length row.now ≡ place.width }
    requires seen { IsSome ((P.attempt pages.old).seen page) }
    ensures follows { P.follows pages.old pages.new }
    ensures met { HandsOn (P.met pages.old) (P.met pages.new) result }
    ensures asked { P.asked pages.old pages.new no_page (only page) 0 }
    ensures ok { OnOk result (P.attempt pages.new ≡ wrote page frame.new (P.attempt pages.old)) }
    ensures err { OnErr result (P.attempt pages.new ≡ P.attempt pages.old) }
    ensures made { IsMade place.width frame.old frame.new (take index (rows_of place.width frame.old) ++ row.now ∷ drop (index + 1) (rows_of place.width frame.old)) }
    ensures same { slice_get (rows_of place.width frame.old) index ≡ Some row.now → frame.new ≡ frame.old }
    ensures bad { IfErr result (OfDamage (λ q place. ⊥)) }
{
    replace_row(frame, place.width as usize, index, row);
    put_one(alloc, pages, page, frame)
}

/// Puts a row into the page of a chain on which the row with its key stands or would stand; whether there was one.
pub(crate) fn put_in<P: Pages>(
    alloc: Global,
    pages: &mut P,
    place: Place,
    page: u32,
    frame: &mut Page,
    row: &[u8],
) -> Result<bool, PageFault>
    requires place { IsPlace place }
    requires sound { IsChainPage place frame.old }
    requires wide { length row.now ≡ place.width }
    requires seen { IsSome ((P.attempt pages.old).seen page) }
    ensures follows { P.follows pages.old pages.new }
    ensures met { HandsOn (P.met pages.old) (P.met pages.new) result }
    ensures asked { P.asked pages.old pages.new no_page (page_or_drawn (P.attempt pages.old) (P.attempt pages.new) page) 2 }
    ensures alone { IfOk result (λ was. IsTrue was → P.asked pages.old pages.new no_page (only page) 0) }
    ensures put { OnOk result (IsSome ((P.attempt pages.new).written page)) }
    ensures put_in { IfOk result (λ was. ForBoth (P.attempt pages.old) (P.attempt pages.new) (λ before after. before page ≡ frame.old →
        IsPutIn place (drew_between (P.attempt pages.old) (P.attempt pages.new)) before after page frame.old row.now was)) }
    ensures there { IsTrue (is_some (row_with place.key row.now (rows_of place.width frame.old))) → P.asked pages.old pages.new no_page (only page) 0 }
    ensures same { row_with place.key row.now (rows_of place.width frame.old) ≡ Some row.now →
        ForBoth (P.attempt pages.old) (P.attempt pages.new) (λ before after. before page ≡ frame.old → IsSame before after) }
    ensures numbers { ForBoth (P.attempt pages.old) (P.attempt pages.new) (λ before after. before page ≡ frame.old → KeepNumbers (P.attempt pages.old) (P.attempt pages.new) before after) }
    ensures bad { IfErr result (OfDamage (λ q place. ⊥)) }
{
    let width = place.width as usize;
    let key = &row[..place.key as usize];
    match search(frame, width, key) {
        Ok(index) => match replace(alloc, pages, place, page, frame, index, row) {
            Ok(()) => Ok(true),
            Err(fault) => Err(fault),
        },
        Err(index) => match add(alloc, pages, place, page, frame, index, row) {
            Ok(()) => Ok(false),
            Err(fault) => Err(fault),
        },
    }
}
