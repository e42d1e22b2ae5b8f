ghost use Rattle.std.specs.Prelude.{◌≡◌, ◌<◌, ◌≤◌, ◌^◌, ◌==◌, ◌||◌, not, ℕ, Bool, List, length, slice_get, take, is_some, Some, None, IsSome, IsTrue, OnOk, OnErr, IfOk, IfErr, if◌then◌else◌};
ghost use Rattle.st_values.specs.Arranged.{each_pair};
ghost use Rattle.st_image.specs.Fields.{kind_of, store_of, rows_of, with_last_serial};
ghost use Rattle.st_image.specs.Grammar.{IsRowPage};
ghost use Rattle.st_pages.specs.declared.places.Place.{Place};
ghost use Rattle.st_pages.specs.Attempt.{Array, may_put};
ghost use Rattle.st_pages.specs.Calls.{HandsOn, is_of_looking, no_page};
ghost use Rattle.st_pages.specs.Reading.{ForEach, OfDamage};
ghost use Rattle.st_store.specs.declared.cursor.Cursor.{Cursor};
ghost use Rattle.st_store.specs.Rows.{AreOrdered, row_with, rows_from};
ghost use Rattle.st_store.specs.Stores.{IsPlace, OfStore, ForBoth, Found, Inserted, Removed, KeepNumbers, IsSame, HasPutStores, Fits, HasPassed, Advanced, among, any_page, changes, drew_between};

use crate::cursor::Cursor;
use st_page::PageFault;
use st_pages::{Pages, Place};
use std::alloc::Global;

/// A store of rows in pages: one list of rows, in the order of their keys, which are their first bytes. A row has the width
/// of its place, and no two have one key.
///
/// What a call gives is said for each array of pages that agrees with what was seen at its end, and has a store there. A call
/// asks for pages on the way of the store alone, whatever stands in them; it takes no memory of its own.
///
/// # Errors
/// `BadPage` where a page is bad, and never where the array has a store there; otherwise what a call of `Pages` answered.
/// Behind a fault that is no want of memory the attempt can only be given up.
pub trait Store: Drop {
    // Where it stands.
    ghost location: { Self → Place };

    // Which pages, in an array, a store at a place consists of, and which rows it has.
    ghost holds: { Place → Array → List ℕ → List (List ℕ) → Type 0 };

    // Whether a page is one that calls may ask for, whatever stands in pages.
    ghost reach: { Place → Array → ℕ → Bool };

    // A page is bad at a place of it.
    ghost bad: { Place → Array → ℕ → ℕ → Type 0 };

    // The row with a key stands on a page, or would stand there.
    ghost spot: { Place → Array → List ℕ → ℕ → Type 0 };

    // A cursor stands in a store, whatever stands in pages; and these rows are ahead of it, where there is a store.
    ghost sits: { Place → Array → Cursor → Type 0 };

    ghost ahead: { Place → Array → Cursor → List (List ℕ) → Type 0 };

    // How many rows may still come behind a cursor at most, whatever stands in pages; so a loop over them ends.
    ghost left: { Place → Cursor → ℕ };

    /// The store at a place.
    fn at(place: Place) -> Self
        requires { IsPlace place }
        ensures { Self.location result ≡ place };

    /// Looks for the row with a key, and copies it. Where there is none, what `row` holds is left open, as at an error.
    fn find<P: Pages>(
        &self,
        alloc: Global,
        pages: &mut P,
        key: &[u8],
        row: &mut [u8],
    ) -> Result<bool, PageFault>
        requires key { length key.now ≡ (Self.location self.now).key }
        requires row { length row.old ≡ (Self.location self.now).width }
        ensures follows { P.follows pages.old pages.new }
        ensures written { (P.attempt pages.new).written ≡ (P.attempt pages.old).written }
        ensures met { HandsOn (P.met pages.old) (P.met pages.new) result }
        ensures looks { IfErr result (λ fault. IsTrue (is_of_looking fault)) }
        ensures asked { ForEach (P.attempt pages.old) (P.attempt pages.new) (λ array. P.asked pages.old pages.new (reach (Self.location self.now) array) no_page 0) }
        ensures found { IfOk result (λ found. ForEach (P.attempt pages.old) (P.attempt pages.new) (λ array.
            OfStore holds (Self.location self.now) array (λ _ rows. Found (Self.location self.now).key key.now rows found row.new))) }
        ensures seen { OnOk result (ForEach (P.attempt pages.old) (P.attempt pages.new) (λ array.
            OfStore holds (Self.location self.now) array (λ _ _. (page : ℕ) × spot (Self.location self.now) array key.now page × IsSome ((P.attempt pages.new).seen page)))) }
        ensures bad { IfErr result (OfDamage (λ page at. ForEach (P.attempt pages.old) (P.attempt pages.new) (λ array. bad (Self.location self.now) array page at))) };

    /// Puts in a row, in place of the one with its key if there is one; whether there was.
    fn insert<P: Pages>(&self, alloc: Global, pages: &mut P, row: &[u8]) -> Result<bool, PageFault>
        requires { length row.now ≡ (Self.location self.now).width }
        ensures follows { P.follows pages.old pages.new }
        ensures met { HandsOn (P.met pages.old) (P.met pages.new) result }
        ensures asked { ForEach (P.attempt pages.old) (P.attempt pages.new) (λ array. P.asked pages.old pages.new (reach (Self.location self.now) array)
            (λ page. reach (Self.location self.now) array page || drew_between (P.attempt pages.old) (P.attempt pages.new) page) 17) }
        ensures kinds { HasPutStores (P.attempt pages.old) → P.asked pages.old pages.new any_page (may_put (P.attempt pages.new)) 17 }
        ensures few { ForBoth (P.attempt pages.old) (P.attempt pages.new) (λ before after. changes (Self.location self.now).first before after ≤ 34) }
        ensures numbers { ForBoth (P.attempt pages.old) (P.attempt pages.new) (λ before after. OfStore holds (Self.location self.now) before (λ _ _. KeepNumbers (P.attempt pages.old) (P.attempt pages.new) before after)) }
        ensures there { ForEach (P.attempt pages.old) (P.attempt pages.new) (λ array. OfStore holds (Self.location self.now) array (λ _ rows. IsTrue (is_some (row_with (Self.location self.now).key row.now rows)) →
            P.asked pages.old pages.new (reach (Self.location self.now) array) (reach (Self.location self.now) array) 0)) }
        ensures same { ForBoth (P.attempt pages.old) (P.attempt pages.new) (λ before after. OfStore holds (Self.location self.now) before (λ _ rows. row_with (Self.location self.now).key row.now rows ≡ Some row.now → IsSame before after)) }
        ensures inserted { IfOk result (λ was. ForBoth (P.attempt pages.old) (P.attempt pages.new) (λ before after.
            OfStore holds (Self.location self.now) before (λ reached rows.
            Inserted holds spot (P.asked pages.old pages.new) reach (Self.location self.now) (P.attempt pages.old) (P.attempt pages.new) before after reached row.now rows was))) }
        ensures bad { IfErr result (OfDamage (λ page at. ForEach (P.attempt pages.old) (P.attempt pages.new) (λ array. bad (Self.location self.now) array page at))) };

    /// Takes out the row with a key; whether there was one. Where there was none, the page on which it would stand is put as
    /// it is, so that whoever removes nothing still holds that page.
    fn remove<P: Pages>(&self, alloc: Global, pages: &mut P, key: &[u8]) -> Result<bool, PageFault>
        requires { length key.now ≡ (Self.location self.now).key }
        ensures follows { P.follows pages.old pages.new }
        ensures met { HandsOn (P.met pages.old) (P.met pages.new) result }
        ensures asked { ForEach (P.attempt pages.old) (P.attempt pages.new) (λ array. P.asked pages.old pages.new (reach (Self.location self.now) array) (reach (Self.location self.now) array) 0) }
        ensures kinds { HasPutStores (P.attempt pages.old) → P.asked pages.old pages.new any_page (may_put (P.attempt pages.new)) 0 }
        ensures few { ForBoth (P.attempt pages.old) (P.attempt pages.new) (λ before after. changes (Self.location self.now).first before after ≤ 34) }
        ensures numbers { ForBoth (P.attempt pages.old) (P.attempt pages.new) (λ before after. OfStore holds (Self.location self.now) before (λ _ _. KeepNumbers (P.attempt pages.old) (P.attempt pages.new) before after)) }
        ensures same { ForBoth (P.attempt pages.old) (P.attempt pages.new) (λ before after. OfStore holds (Self.location self.now) before (λ _ rows. row_with (Self.location self.now).key key.now rows ≡ None → IsSame before after)) }
        ensures removed { IfOk result (λ was. ForBoth (P.attempt pages.old) (P.attempt pages.new) (λ before after.
            OfStore holds (Self.location self.now) before (λ reached rows.
            Removed holds spot (P.asked pages.old pages.new) reach (Self.location self.now) (P.attempt pages.old) (P.attempt pages.new) before after reached key.now rows was))) }
        ensures bad { IfErr result (OfDamage (λ page at. ForEach (P.attempt pages.old) (P.attempt pages.new) (λ array. bad (Self.location self.now) array page at))) };

    /// A cursor in front of the first row whose key isn't below a key.
    fn seek<P: Pages>(&self, alloc: Global, pages: &mut P, key: &[u8]) -> Result<Cursor, PageFault>
        requires { length key.now ≡ (Self.location self.now).key }
        ensures follows { P.follows pages.old pages.new }
        ensures written { (P.attempt pages.new).written ≡ (P.attempt pages.old).written }
        ensures met { HandsOn (P.met pages.old) (P.met pages.new) result }
        ensures looks { IfErr result (λ fault. IsTrue (is_of_looking fault)) }
        ensures asked { ForEach (P.attempt pages.old) (P.attempt pages.new) (λ array. P.asked pages.old pages.new (reach (Self.location self.now) array) no_page 0) }
        ensures fits { IfOk result (λ cursor. Fits (Self.location self.now) cursor) }
        ensures sits { IfOk result (λ cursor. ForEach (P.attempt pages.old) (P.attempt pages.new) (λ array. sits (Self.location self.now) array cursor)) }
        ensures ahead { IfOk result (λ cursor. ForEach (P.attempt pages.old) (P.attempt pages.new) (λ array.
            OfStore holds (Self.location self.now) array (λ _ rows. ahead (Self.location self.now) array cursor (rows_from (Self.location self.now).key key.now rows)))) }
        ensures bad { IfErr result (OfDamage (λ page at. ForEach (P.attempt pages.old) (P.attempt pages.new) (λ array. bad (Self.location self.now) array page at))) };

    /// Goes on by a row, and copies it; false where there is none left. At an error the cursor is as it was.
    fn advance<P: Pages>(
        &self,
        alloc: Global,
        pages: &mut P,
        cursor: &mut Cursor,
        row: &mut [u8],
    ) -> Result<bool, PageFault>
        requires row { length row.old ≡ (Self.location self.now).width }
        requires fits { Fits (Self.location self.now) cursor.old }
        ensures follows { P.follows pages.old pages.new }
        ensures written { (P.attempt pages.new).written ≡ (P.attempt pages.old).written }
        ensures met { HandsOn (P.met pages.old) (P.met pages.new) result }
        ensures looks { IfErr result (λ fault. IsTrue (is_of_looking fault)) }
        ensures asked { ForEach (P.attempt pages.old) (P.attempt pages.new) (λ array. sits (Self.location self.now) array cursor.old →
            P.asked pages.old pages.new (reach (Self.location self.now) array) no_page 0) }
        ensures fits { Fits (Self.location self.now) cursor.new }
        ensures sits { OnOk result (ForEach (P.attempt pages.old) (P.attempt pages.new) (λ array. sits (Self.location self.now) array cursor.old → sits (Self.location self.now) array cursor.new)) }
        ensures next { IfOk result (λ more. ForEach (P.attempt pages.old) (P.attempt pages.new) (λ array. (rest : List (List ℕ)) → ahead (Self.location self.now) array cursor.old rest →
            Advanced (ahead (Self.location self.now) array cursor.new) rest more row.new)) }
        ensures row { IfOk result (λ more. IsTrue more → HasPassed (Self.location self.now) cursor.new row.new) }
        ensures fewer { IfOk result (λ more. IsTrue more → left (Self.location self.now) cursor.new < left (Self.location self.now) cursor.old) }
        ensures kept { OnErr result (cursor.new ≡ cursor.old) }
        ensures bad { IfErr result (OfDamage (λ page at. ForEach (P.attempt pages.old) (P.attempt pages.new) (λ array. sits (Self.location self.now) array cursor.old → bad (Self.location self.now) array page at))) };

    // There is one store at a place at most.
    ghost one: { (p : Place) (a : Array) (pages others : List ℕ) (rows more : List (List ℕ)) → holds p a pages rows → holds p a others more → (pages ≡ others) × (rows ≡ more) };

    ghost in_order: { (p : Place) (a : Array) (pages : List ℕ) (rows : List (List ℕ)) → holds p a pages rows → AreOrdered p.key p.width rows };

    // Its pages are those that calls may ask for, its first one among them; they bear its number, and are of a store.
    ghost has_first: { (p : Place) (a : Array) (pages : List ℕ) (rows : List (List ℕ)) → holds p a pages rows → IsTrue (among pages p.first) };

    ghost reached: { (p : Place) (a : Array) (pages : List ℕ) (rows : List (List ℕ)) (page : ℕ) → holds p a pages rows → reach p a page ≡ among pages page };

    ghost bear: { (p : Place) (a : Array) (pages : List ℕ) (rows : List (List ℕ)) (page : ℕ) → holds p a pages rows → IsTrue (among pages page) → (page < 65536) × (store_of (a page) ≡ p.store) × (2 ≤ kind_of (a page)) × (kind_of (a page) ≤ 4) };

    // None of its pages is there twice; and the first one of an extent is one of a chain, by whose grammar its last serial is read.
    ghost once: { (p : Place) (a : Array) (pages : List ℕ) (rows : List (List ℕ)) → holds p a pages rows → IsTrue (each_pair (λ page other. not (page == other)) pages) };

    ghost extent_first: { (p : Place) (a : Array) (pages : List ℕ) (rows : List (List ℕ)) → holds p a pages rows → p.store < 65536 → IsRowPage 2 p.store p.key p.width (a p.first) };

    // It depends on its pages alone, and on the last serial not even there.
    ghost depends: { (p : Place) (a b : Array) (pages : List ℕ) (rows : List (List ℕ)) → holds p a pages rows → ((page : ℕ) → IsTrue (among pages page) → b page ≡ a page) → holds p b pages rows };

    ghost any_serial: { (p : Place) (a b : Array) (pages : List ℕ) (rows : List (List ℕ)) (serial : ℕ) → p.store < 65536 → serial < 2 ^ 32 → holds p a pages rows →
        ((page : ℕ) → b page ≡ (if page == p.first then with_last_serial serial (a page) else a page)) → holds p b pages rows };

    ghost never_bad: { (p : Place) (a : Array) (pages : List ℕ) (rows : List (List ℕ)) (page at : ℕ) → bad p a page at → holds p a pages rows → ⊥ };

    // Each key has one spot, whatever is behind it in a row, and a row stands on that of its key.
    ghost one_spot: { (p : Place) (a : Array) (pages : List ℕ) (rows : List (List ℕ)) (key : List ℕ) (page other : ℕ) → holds p a pages rows → spot p a key page → spot p a key other → page ≡ other };

    ghost spot_of_key: { (p : Place) (a : Array) (row other : List ℕ) (page : ℕ) → take p.key row ≡ take p.key other → spot p a row page → spot p a other page };

    ghost stands_there: { (p : Place) (a : Array) (pages : List ℕ) (rows : List (List ℕ)) (row : List ℕ) (page index : ℕ) → holds p a pages rows → IsTrue (among pages page) → kind_of (a page) < 4 →
        slice_get (rows_of p.width (a page)) index ≡ Some row → spot p a row page };

    // What is ahead of a cursor depends on the store's pages alone.
    ghost ahead_depends: { (p : Place) (a b : Array) (pages : List ℕ) (rows : List (List ℕ)) (cursor : Cursor) (rest : List (List ℕ)) → holds p a pages rows → ((page : ℕ) → IsTrue (among pages page) → b page ≡ a page) →
        ahead p a cursor rest → ahead p b cursor rest };

    // Where a cursor stands, its page is as it was when it was got, and one that calls may ask for.
    ghost stands: { (p : Place) (a : Array) (cursor : Cursor) → sits p a cursor → (a cursor.number ≡ cursor.page) × IsTrue (reach p a cursor.number) };

    ghost ahead_sits: { (p : Place) (a : Array) (cursor : Cursor) (rest : List (List ℕ)) → ahead p a cursor rest → sits p a cursor };
}
