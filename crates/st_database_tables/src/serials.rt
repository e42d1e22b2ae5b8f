//! The last serial in a store's first page.
ghost use Rattle.std.specs.Prelude.{◌<◌, IfSome};
ghost use Rattle.st_image.specs.Grammar.{AreFair};

use crate::edits::{Given, next_word, number};
use crate::schemas::pages_of;
use crate::told::push_fault;
use st_catalog::{Place, last_serial, set_last_serial};
use st_image::Page;
use st_memory_pages::MemoryPages;
use st_page::PageFault;
use st_pages::Pages;
use std::alloc::{AllocError, Global};

/// A last serial that is set, and read again: the front is the text of a schema, and the text edits of the pages of a new
/// database, a semicolon, the number of a store, its first page, how many bytes its keys and its rows have, and the serial.
pub fn serial_answer(alloc: Global, front: &[u8], text: &str) -> Result<String, AllocError> {
    let Some((edits, given)) = text.split_once(';') else {
        return String::from_str(alloc, " nothing given");
    };
    match pages_of(alloc, front)? {
        Some(pages) => edited(alloc, pages, edits, given),
        None => String::from_str(alloc, " no schema"),
    }
}

fn edited(alloc: Global, pages: Vec<Page>, edits: &str, text: &str) -> Result<String, AllocError> {
    let mut given = Given {
        pages,
        failing: Vec::new(alloc),
    };
    if given.take_all(edits.trim())? {
        let Given { pages, failing } = given;
        opened(alloc, pages, failing, text)
    } else {
        String::from_str(alloc, " no edit")
    }
}

fn opened(
    alloc: Global,
    pages: Vec<Page>,
    failing: Vec<u64>,
    text: &str,
) -> Result<String, AllocError> {
    if pages.len() > 65536 {
        return String::from_str(alloc, " no database");
    }
    let mut memory = MemoryPages::new(alloc, pages, failing)?;
    told(alloc, &mut memory, text)
}

fn told<P: Pages>(alloc: Global, pages: &mut P, text: &str) -> Result<String, AllocError> {
    let mut words = text.split_whitespace();
    let store = number(next_word(&mut words));
    let first = number(next_word(&mut words));
    let key = number(next_word(&mut words));
    let width = number(next_word(&mut words));
    let serial = number(next_word(&mut words));
    match fair(store, first, key, width) {
        Some(place) => set_and_told(alloc, pages, place, serial),
        None => String::from_str(alloc, " no place"),
    }
}

/// A place, where it may be one.
fn fair(store: u32, first: u32, key: u32, width: u32) -> Option<Place>
    ensures extent { IfSome result (λ place. place.store < 65536) }
    ensures first { IfSome result (λ place. place.first < 65536) }
    ensures fair { IfSome result (λ place. AreFair place.key place.width) }
{
    if store > 65535 || first > 65535 || key < 1 || key > 207 || key > width || width > 1000 {
        return None;
    }
    Some(Place {
        store,
        first,
        key: key as u16,
        width: width as u16,
    })
}

fn set_and_told<P: Pages>(
    alloc: Global,
    pages: &mut P,
    place: Place,
    serial: u32,
) -> Result<String, AllocError>
    requires extent { place.store < 65536 }
    requires first { place.first < 65536 }
    requires fair { AreFair place.key place.width }
{
    match set_and_read(alloc, pages, place, serial) {
        Ok(found) => format!(in alloc; " {found}"),
        Err(fault) => fault_told(alloc, fault),
    }
}

fn fault_told(alloc: Global, fault: PageFault) -> Result<String, AllocError> {
    let mut out = String::new(alloc);
    push_fault(&mut out, fault)?;
    Ok(out)
}

fn set_and_read<P: Pages>(
    alloc: Global,
    pages: &mut P,
    place: Place,
    serial: u32,
) -> Result<u32, PageFault>
    requires extent { place.store < 65536 }
    requires first { place.first < 65536 }
    requires fair { AreFair place.key place.width }
{
    match set_last_serial(alloc, pages, place, serial) {
        Ok(()) => last_serial(alloc, pages, place),
        Err(fault) => Err(fault),
    }
}
