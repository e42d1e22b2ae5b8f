ghost use Rattle.std.specs.Prelude.{◌≡◌, ◌+◌, ◌*◌, ◌/◌, ◌^◌, ◌≤◌, ℕ, length, IfErr, OnOk};
ghost use Rattle.st_image.specs.Grammar.{AreChildren, AreEntries, AreFair, IsFair, IsForm, IsPage, IsPiece, IsRowPage, inner_header, roots_header, schema_header, serial_limit};
ghost use Rattle.st_image.specs.Parts.{Finds};
ghost use Rattle.st_image.specs.Prefixes.{IsFirstWrong};

use crate::form::{row_page_fault, text_page_fault};
use crate::head::Head;
use crate::page::Page;
use crate::range::first_set;
use crate::wanted::Wanted;

/// Whether a page is in the grammar that is wanted of it; otherwise the first place at which its bytes leave that
/// grammar: those in front can still go on to what is in it, and with the one at the place they can't.
pub fn check_page(page: &Page, wanted: Wanted) -> Result<(), u16>
    requires { IsFair wanted }
    ensures ok { OnOk result (IsPage wanted page.now) }
    ensures wrong { IfErr result (λ place. IsFirstWrong (IsPage wanted) page.now place) }
{
    match fault_of(page.bytes(), wanted) {
        None => Ok(()),
        Some(place) => Err(place as u16),
    }
}

fn fault_of(bytes: &[u8], wanted: Wanted) -> Option<usize>
    requires size { length bytes.now ≡ 4096 }
    requires fair { IsFair wanted }
    ensures { Finds (IsPage wanted) bytes.now result }
{
    match wanted {
        Wanted::Free => first_set(bytes),
        Wanted::Schema => schema_fault(bytes),
        Wanted::Roots => roots_fault(bytes),
        Wanted::Chain { store, key, width } => data_fault(bytes, 2, store, key, width),
        Wanted::Leaf { store, key, width } => data_fault(bytes, 3, store, key, width),
        Wanted::Node { store, key, width } => {
            if bytes[0] == 4 {
                inner_fault(bytes, store, key)
            } else {
                data_fault(bytes, 3, store, key, width)
            }
        }
    }
}

fn schema_fault(bytes: &[u8]) -> Option<usize>
    requires { length bytes.now ≡ 4096 }
    ensures { Finds (IsForm schema_header IsPiece) bytes.now result }
{
    let head = Head {
        kind: 1,
        least: 1,
        most: 4080,
        store: 0,
        next: 65535,
        last: 0,
    };
    text_page_fault(bytes, &head)
}

fn roots_fault(bytes: &[u8]) -> Option<usize>
    requires { length bytes.now ≡ 4096 }
    ensures { Finds (IsForm roots_header (AreEntries 4)) bytes.now result }
{
    let head = Head {
        kind: 5,
        least: 0,
        most: 510,
        store: 0,
        next: 65535,
        last: 0,
    };
    row_page_fault(bytes, &head, 4, 8, true, false)
}

fn data_fault(bytes: &[u8], kind: u8, store: u32, key: u16, width: u16) -> Option<usize>
    requires size { length bytes.now ≡ 4096 }
    requires fair { AreFair key width }
    ensures { Finds (IsRowPage kind store key width) bytes.now result }
{
    let head = Head {
        kind,
        least: 0,
        most: most_rows(key, width),
        store,
        next: 65535,
        last: last_serial(store),
    };
    row_page_fault(bytes, &head, key as usize, width as usize, false, false)
}

fn inner_fault(bytes: &[u8], store: u32, key: u16) -> Option<usize>
    requires size { length bytes.now ≡ 4096 }
    requires least { 1 ≤ key }
    requires most { key ≤ 207 }
    ensures { Finds (IsForm (inner_header store key) (AreChildren key)) bytes.now result }
{
    let width = key + 4;
    let head = Head {
        kind: 4,
        least: 2,
        most: most_rows(key, width),
        store,
        next: 0,
        last: last_serial(store),
    };
    row_page_fault(bytes, &head, key as usize, width as usize, true, true)
}

/// How many rows of a width a page may have: as many as it has room for, and no more than there are keys.
fn most_rows(key: u16, width: u16) -> u16
    requires key { 1 ≤ key }
    requires width { 1 ≤ width }
    ensures room { result ≤ 4080 / width }
    ensures keys { result ≤ 256 ^ key }
    ensures greatest { (n : ℕ) → n ≤ 4080 / width → n ≤ 256 ^ key → n ≤ result }
    ensures fits { result * width ≤ 4080 }
{
    let room = 4080 / width;
    if key == 1 { room.min(256) } else { room }
}

/// The greatest last serial that a page of a store may have.
fn last_serial(store: u32) -> u32
    ensures { result ≡ serial_limit store }
{
    if store < 65536 { u32::MAX } else { 0 }
}
