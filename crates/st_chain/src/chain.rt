ghost use Rattle.std.specs.Prelude.{◌≡◌, ◌≤◌, length, drop};
ghost use Rattle.st_image.specs.Fields.{count_of, rows_of};
ghost use Rattle.st_store.specs.Rows.{rows_from};
ghost use Rattle.st_store.specs.Stores.{IsPlace, Found};
ghost use Rattle.st_store.specs.Chain.{IsChainPage};

use crate::above::next_page;
use crate::insert::put_in;
use crate::remove::take_out;
use crate::walk::locate;
use st_image::Page;
use st_page::PageFault;
use st_page_rows::{row_at, search};
use st_pages::{Pages, Place};
use st_store::{Cursor, Store};
use std::alloc::Global;
use std::marker::Model;

/// A store as a chain of pages: each names the one behind it. A page that is full is split where a row goes into it, and one
/// that is empty, but the first, is taken out of the chain.
#[derive(Clone, Copy)]
pub struct Chain {
    place: Place,
}

impl Model for Chain {
    ghost use Rattle.st_pages.specs.declared.places.Place.{Place};
    ghost use Rattle.st_store.specs.Stores.{IsPlace};

    ghost Value = { Place };

    ghost view = { λ it. it.place };

    ghost inverse = { λ place. record { place = place } };

    ghost invariant = { λ it. IsPlace it.place };
}

impl Store for Chain {
    ghost use Rattle.st_store.specs.Chain.{IsChainOf, IsBadPage, IsSpot, SitsInChain, IsAheadInChain, is_on_chain, left_in_chain};
    ghost use Rattle.st_chain.specs.Laws as laws;

    ghost location = { λ it. it };

    ghost holds = { IsChainOf };

    ghost reach = { is_on_chain };

    ghost bad = { IsBadPage };

    ghost spot = { IsSpot };

    ghost sits = { SitsInChain };

    ghost ahead = { IsAheadInChain };

    ghost left = { left_in_chain };

    ghost one = { laws.one };

    ghost in_order = { laws.in-order };

    ghost has_first = { laws.has-first };

    ghost reached = { laws.reached };

    ghost bear = { laws.bear };

    ghost once = { laws.once };

    ghost extent_first = { laws.extent-first };

    ghost depends = { laws.depends };

    ghost any_serial = { laws.any-serial };

    ghost never_bad = { laws.never-bad };

    ghost one_spot = { laws.one-spot };

    ghost spot_of_key = { laws.spot-of-key };

    ghost stands_there = { λ p a pages rows row page index chain here leaf at. laws.stands-there p a pages rows row page index chain here at };

    ghost ahead_depends = { laws.ahead-depends };

    ghost stands = { laws.stands };

    ghost ahead_sits = { laws.ahead-sits };

    fn at(place: Place) -> Self {
        Chain { place }
    }

    fn find<P: Pages>(
        &self,
        alloc: Global,
        pages: &mut P,
        key: &[u8],
        row: &mut [u8],
    ) -> Result<bool, PageFault> {
        let mut frame = Page::blank();
        match locate(alloc, pages, self.place, key, &mut frame) {
            Ok(_) => Ok(copy_found(self.place, &frame, key, row)),
            Err(fault) => Err(fault),
        }
    }

    fn insert<P: Pages>(
        &self,
        alloc: Global,
        pages: &mut P,
        row: &[u8],
    ) -> Result<bool, PageFault> {
        let mut frame = Page::blank();
        let key = &row[..self.place.key as usize];
        let spot = match locate(alloc, pages, self.place, key, &mut frame) {
            Ok(spot) => spot,
            Err(fault) => return Err(fault),
        };
        put_in(alloc, pages, self.place, spot.page, &mut frame, row)
    }

    fn remove<P: Pages>(
        &self,
        alloc: Global,
        pages: &mut P,
        key: &[u8],
    ) -> Result<bool, PageFault> {
        let mut frame = Page::blank();
        let spot = match locate(alloc, pages, self.place, key, &mut frame) {
            Ok(spot) => spot,
            Err(fault) => return Err(fault),
        };
        take_out(alloc, pages, self.place, spot, &mut frame, key)
    }

    fn seek<P: Pages>(
        &self,
        alloc: Global,
        pages: &mut P,
        key: &[u8],
    ) -> Result<Cursor, PageFault> {
        let mut frame = Page::blank();
        match locate(alloc, pages, self.place, key, &mut frame) {
            Ok(spot) => Ok(cursor_on(self.place, spot.page, &frame, key)),
            Err(fault) => Err(fault),
        }
    }

    fn advance<P: Pages>(
        &self,
        alloc: Global,
        pages: &mut P,
        cursor: &mut Cursor,
        row: &mut [u8],
    ) -> Result<bool, PageFault> {
        let width = self.place.width as usize;
        if cursor.index < cursor.page.count() {
            row.copy_from_slice(row_at(&cursor.page, width, cursor.index as usize));
            cursor.index += 1;
            return Ok(true);
        }
        if cursor.page.next() == 0 {
            return Ok(false);
        }
        let mut frame = cursor.page;
        match next_page(alloc, pages, self.place, &mut frame) {
            Ok(()) => {}
            Err(fault) => return Err(fault),
        }
        row.copy_from_slice(row_at(&frame, width, 0));
        cursor.number = cursor.page.next();
        cursor.page = frame;
        cursor.index = 1;
        Ok(true)
    }
}

/// Looks on a page for the row with a key, and copies it.
fn copy_found(place: Place, page: &Page, key: &[u8], row: &mut [u8]) -> bool
    requires place { IsPlace place }
    requires key { length key.now ≡ place.key }
    requires sound { IsChainPage place page.now }
    requires row { length row.old ≡ place.width }
    ensures { Found place.key key.now (rows_of place.width page.now) result row.new }
{
    let width = place.width as usize;
    match search(page, width, key) {
        Ok(index) => {
            row.copy_from_slice(row_at(page, width, index));
            true
        }
        Err(_) => false,
    }
}

/// How many rows of a page are below a key.
fn index_from(place: Place, page: &Page, key: &[u8]) -> u16
    requires place { IsPlace place }
    requires key { length key.now ≡ place.key }
    requires sound { IsChainPage place page.now }
    ensures within { result ≤ count_of page.now }
    ensures from { drop result (rows_of place.width page.now) ≡ rows_from place.key key.now (rows_of place.width page.now) }
{
    match search(page, place.width as usize, key) {
        Ok(index) => index as u16,
        Err(index) => index as u16,
    }
}

/// A cursor on a page, in front of the first row whose key isn't below a key.
fn cursor_on(place: Place, number: u32, page: &Page, key: &[u8]) -> Cursor
    requires place { IsPlace place }
    requires key { length key.now ≡ place.key }
    requires sound { IsChainPage place page.now }
    ensures number { result.number ≡ number }
    ensures page { result.page ≡ page.now }
    ensures within { result.index ≤ count_of page.now }
    ensures from { drop result.index (rows_of place.width page.now) ≡ rows_from place.key key.now (rows_of place.width page.now) }
{
    Cursor {
        number,
        page: *page,
        index: index_from(place, page, key),
    }
}
