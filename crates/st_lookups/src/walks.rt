//! How the rows of a store are gone over, one after the other.
ghost use Rattle.std.specs.Prelude.{◌≡◌, ◌+◌, ◌*◌, ◌<◌, ◌≤◌, ◌++◌, ◌∷◌, [], Bool, List, ℕ, suc, length, IsTrue, IfOk, IfErr, OnOk};
ghost use Rattle.std.specs.List.{All};
ghost use Rattle.st_page.specs.declared.fault.PageFault.TheVariants as page_fault;
ghost use Rattle.st_pages.specs.Calls.{Met, HandsOn, no_page, is_of_looking};
ghost use Rattle.st_pages.specs.Reading.{ForEach, OfDamage};
ghost use Rattle.st_rows.specs.declared.fault.RowFault.TheVariants as row_fault;
ghost use Rattle.st_store.specs.Rows.{rows_from};
ghost use Rattle.st_store.specs.Stores.{IsPlace, OfStore, Fits as CursorFits};
ghost use Rattle.st_database.specs.Touches.{WithStore};
ghost use Rattle.st_lookups.specs.Looks.{Peeks, Finds, Stepped, taken_from};

use st_page::PageFault;
use st_pages::{Pages, Place};
use st_rows::RowFault;
use st_store::{Cursor, Store};
use std::alloc::Global;

/// The most bytes that a row has.
pub const MOST_BYTES: usize = 1000;

/// What takes rows, one after the other.
pub trait Visit {
    // It takes rows of a width.
    ghost wide: { Self → ℕ → Type 0 };

    // A row is one that is never refused.
    ghost sound: { Self → List ℕ → Type 0 };

    // Whether more are wanted behind a row.
    ghost goes: { Self → List ℕ → Bool };

    // What it has is what it had before, and that of these rows.
    ghost told: { Self → Self → List (List ℕ) → Type 0 };

    /// Takes a row; whether more are wanted.
    fn take(&mut self, alloc: Global, row: &[u8]) -> Result<bool, RowFault>
        requires { wide self.old (length row.now) }
        ensures wide { (width : ℕ) → wide self.old width → wide self.new width }
        ensures sound { (other : List ℕ) → sound self.old other → sound self.new other }
        ensures goes { goes self.new ≡ goes self.old }
        ensures more { IfOk result (λ more. more ≡ goes self.old row.now) }
        ensures told { OnOk result ((before : Self) (rows : List (List ℕ)) → told before self.old rows → told before self.new (rows ++ row.now ∷ [])) }
        ensures refused { IfErr result (λ fault. sound self.old row.now → fault ≡ row_fault.Memory) };
}

/// The fault of a row at an index of a page.
fn fault_in(fault: RowFault, page: u32, start: u16) -> PageFault
    ensures memory { fault ≡ row_fault.Memory → result ≡ page_fault.Memory }
    ensures met { (old new : Met) → HandsOn {A = Bool} old new (Err result) }
    ensures looks { IsTrue (is_of_looking result) }
{
    match fault {
        RowFault::BadRow { place } => PageFault::BadPage {
            page,
            place: start.saturating_add(place),
        },
        RowFault::Memory => PageFault::Memory,
    }
}

/// The place in its page of the row that a cursor passed last.
fn start_of(cursor: &Cursor, width: usize) -> u16
    requires { (index : ℕ) × (cursor.now.index ≡ suc index) × (index * width + width ≤ 4080) }
{
    (16 + (cursor.index as usize - 1) * width) as u16
}

/// Has the row taken that a cursor passed last; whether more are wanted.
fn take_row<V: Visit>(
    alloc: Global,
    cursor: &Cursor,
    row: &[u8],
    visit: &mut V,
) -> Result<bool, PageFault>
    requires passed { (index : ℕ) × (cursor.now.index ≡ suc index) × (index * length row.now + length row.now ≤ 4080) }
    requires wide { V.wide visit.old (length row.now) }
    ensures met { (old new : Met) → HandsOn old new result }
    ensures looks { IfErr result (λ fault. IsTrue (is_of_looking fault)) }
    ensures wide { (width : ℕ) → V.wide visit.old width → V.wide visit.new width }
    ensures sound { (other : List ℕ) → V.sound visit.old other → V.sound visit.new other }
    ensures goes { V.goes visit.new ≡ V.goes visit.old }
    ensures more { IfOk result (λ more. more ≡ V.goes visit.old row.now) }
    ensures told { OnOk result ((before : V) (rows : List (List ℕ)) → V.told before visit.old rows → V.told before visit.new (rows ++ row.now ∷ [])) }
    ensures refused { IfErr result (λ fault. V.sound visit.old row.now → fault ≡ page_fault.Memory) }
{
    match visit.take(alloc, row) {
        Ok(more) => Ok(more),
        Err(fault) => Err(fault_in(fault, cursor.number, start_of(cursor, row.len()))),
    }
}

/// Goes on by a row, and has it taken; whether more are wanted.
fn step<S: Store, P: Pages, V: Visit>(
    alloc: Global,
    store: &S,
    pages: &mut P,
    cursor: &mut Cursor,
    row: &mut [u8],
    visit: &mut V,
) -> Result<bool, PageFault>
    requires row { length row.old ≡ (S.location store.now).width }
    requires fits { CursorFits (S.location store.now) cursor.old }
    requires wide { V.wide visit.old (S.location store.now).width }
    ensures follows { P.follows pages.old pages.new }
    ensures written { (P.attempt pages.new).written ≡ (P.attempt pages.old).written }
    ensures met { HandsOn (P.met pages.old) (P.met pages.new) result }
    ensures looks { IfErr result (λ fault. IsTrue (is_of_looking fault)) }
    ensures asked { ForEach (P.attempt pages.old) (P.attempt pages.new) (λ array. S.sits (S.location store.now) array cursor.old →
        P.asked pages.old pages.new (S.reach (S.location store.now) array) no_page 0) }
    ensures fits { CursorFits (S.location store.now) cursor.new }
    ensures sits { OnOk result (ForEach (P.attempt pages.old) (P.attempt pages.new) (λ array. S.sits (S.location store.now) array cursor.old → S.sits (S.location store.now) array cursor.new)) }
    ensures wide { (width : ℕ) → V.wide visit.old width → V.wide visit.new width }
    ensures sound { (other : List ℕ) → V.sound visit.old other → V.sound visit.new other }
    ensures goes { V.goes visit.new ≡ V.goes visit.old }
    ensures next { IfOk result (λ more. ForEach (P.attempt pages.old) (P.attempt pages.new) (λ array. (rest : List (List ℕ)) → S.ahead (S.location store.now) array cursor.old rest →
        Stepped (S.ahead (S.location store.now) array cursor.new) (V.goes visit.old)
        (λ rows. (before : V) (had : List (List ℕ)) → V.told before visit.old had → V.told before visit.new (had ++ rows)) rest more)) }
    ensures fewer { IfOk result (λ more. IsTrue more → S.left (S.location store.now) cursor.new < S.left (S.location store.now) cursor.old) }
    ensures bad { IfErr result (OfDamage (λ page at. ForEach (P.attempt pages.old) (P.attempt pages.new) (λ array. (rest : List (List ℕ)) → S.ahead (S.location store.now) array cursor.old rest →
        All (V.sound visit.old) rest → S.bad (S.location store.now) array page at))) }
{
    match store.advance(alloc, pages, cursor, row) {
        Ok(true) => take_row(alloc, cursor, row, visit),
        Ok(false) => Ok(false),
        Err(fault) => Err(fault),
    }
}

/// Has the rows taken that are ahead of a cursor, as long as they are wanted.
fn take_all<S: Store, P: Pages, V: Visit>(
    alloc: Global,
    store: &S,
    pages: &mut P,
    mut cursor: Cursor,
    row: &mut [u8],
    visit: &mut V,
) -> Result<(), PageFault>
    requires row { length row.old ≡ (S.location store.now).width }
    requires fits { CursorFits (S.location store.now) cursor }
    requires wide { V.wide visit.old (S.location store.now).width }
    ensures follows { P.follows pages.old pages.new }
    ensures written { (P.attempt pages.new).written ≡ (P.attempt pages.old).written }
    ensures met { HandsOn (P.met pages.old) (P.met pages.new) result }
    ensures looks { IfErr result (λ fault. IsTrue (is_of_looking fault)) }
    ensures asked { ForEach (P.attempt pages.old) (P.attempt pages.new) (λ array. S.sits (S.location store.now) array cursor →
        P.asked pages.old pages.new (S.reach (S.location store.now) array) no_page 0) }
    ensures wide { (width : ℕ) → V.wide visit.old width → V.wide visit.new width }
    ensures sound { (other : List ℕ) → V.sound visit.old other → V.sound visit.new other }
    ensures goes { V.goes visit.new ≡ V.goes visit.old }
    ensures told { OnOk result (ForEach (P.attempt pages.old) (P.attempt pages.new) (λ array. (rest : List (List ℕ)) → S.ahead (S.location store.now) array cursor rest →
        (before : V) (had : List (List ℕ)) → V.told before visit.old had → V.told before visit.new (had ++ taken_from (V.goes visit.old) rest))) }
    ensures bad { IfErr result (OfDamage (λ page at. ForEach (P.attempt pages.old) (P.attempt pages.new) (λ array. (rest : List (List ℕ)) → S.ahead (S.location store.now) array cursor rest →
        All (V.sound visit.old) rest → S.bad (S.location store.now) array page at))) }
{
    loop {
        match step(alloc, store, pages, &mut cursor, row, visit) {
            Ok(true) => {}
            Ok(false) => return Ok(()),
            Err(fault) => return Err(fault),
        }
    }
}

/// Goes over the rows of a store, from a key on, as long as they are wanted.
pub fn walk<S: Store, P: Pages, V: Visit>(
    alloc: Global,
    place: Place,
    pages: &mut P,
    from: &[u8],
    visit: &mut V,
) -> Result<(), PageFault>
    requires place { IsPlace place }
    requires from { length from.now ≡ place.key }
    requires wide { V.wide visit.old place.width }
    ensures keeps { Peeks (P.follows pages.old pages.new) (P.attempt pages.old) (P.attempt pages.new) (P.met pages.old) (P.met pages.new) result }
    ensures wide { (width : ℕ) → V.wide visit.old width → V.wide visit.new width }
    ensures sound { (other : List ℕ) → V.sound visit.old other → V.sound visit.new other }
    ensures goes { V.goes visit.new ≡ V.goes visit.old }
    ensures finds { WithStore S.holds (P.attempt pages.old) (P.attempt pages.new) place (λ array schema places view.
        All (V.sound visit.old) (view.rows place.store) →
        Finds (P.asked pages.old pages.new) (P.attempt pages.old) (P.attempt pages.new) array
        (λ _. (before : V) (had : List (List ℕ)) → V.told before visit.old had → V.told before visit.new (had ++ taken_from (V.goes visit.old) (rows_from place.key from.now (view.rows place.store))))
        (place.store ∷ []) result) }
{
    let store = S::at(place);
    let mut bytes = [0; MOST_BYTES];
    let row = &mut bytes[..place.width as usize];
    match store.seek(alloc, pages, from) {
        Ok(cursor) => take_all(alloc, &store, pages, cursor, row, visit),
        Err(fault) => Err(fault),
    }
}
