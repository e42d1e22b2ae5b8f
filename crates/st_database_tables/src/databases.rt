//! Databases in pages: what is read of them, and how they begin.

use crate::edits::{Given, number};
use crate::schemas::pages_of;
use crate::told::{digits_of, push_fault, told};
use st_catalog::read_database;
use st_image::Page;
use st_memory_pages::MemoryPages;
use st_page::PageFault;
use st_pages::Pages;
use std::alloc::{AllocError, Global};

/// What is read of the pages of a new database: the front is the text of its schema, and the text has edits.
pub fn database_answer(alloc: Global, front: &[u8], text: &str) -> Result<String, AllocError> {
    match pages_of(alloc, front)? {
        Some(pages) => edited(alloc, pages, text),
        None => String::from_str(alloc, " no schema"),
    }
}

fn edited(alloc: Global, pages: Vec<Page>, text: &str) -> Result<String, AllocError> {
    let mut given = Given {
        pages,
        failing: Vec::new(alloc),
    };
    if given.take_all(text)? {
        let Given { pages, failing } = given;
        opened(alloc, pages, failing)
    } else {
        String::from_str(alloc, " no edit")
    }
}

fn opened(alloc: Global, pages: Vec<Page>, failing: Vec<u64>) -> Result<String, AllocError> {
    if pages.len() > 65536 {
        return String::from_str(alloc, " no database");
    }
    let mut memory = MemoryPages::new(alloc, pages, failing)?;
    read_told(alloc, &mut memory)
}

/// What is read of pages.
fn read_told<P: Pages>(alloc: Global, pages: &mut P) -> Result<String, AllocError> {
    match read_database(alloc, pages) {
        Ok((schema, places)) => told(alloc, &schema, &places),
        Err(fault) => fault_told(alloc, fault),
    }
}

fn fault_told(alloc: Global, fault: PageFault) -> Result<String, AllocError> {
    let mut out = String::new(alloc);
    push_fault(&mut out, fault)?;
    Ok(out)
}

/// The bytes of a page of a new database without the zeros at its end: the front is the text of its schema, and the text the
/// number of the page.
pub fn page_answer(alloc: Global, front: &[u8], text: &str) -> Result<String, AllocError> {
    match pages_of(alloc, front)? {
        Some(pages) => page_told(alloc, pages.as_slice(), text),
        None => String::from_str(alloc, " no schema"),
    }
}

fn page_told(alloc: Global, pages: &[Page], text: &str) -> Result<String, AllocError> {
    match pages.get(number(text) as usize) {
        Some(page) => bytes_told(alloc, page.bytes()),
        None => String::from_str(alloc, " no page"),
    }
}

fn bytes_told(alloc: Global, bytes: &[u8]) -> Result<String, AllocError> {
    let digits = digits_of(alloc, bytes)?;
    if digits.is_empty() {
        String::from_str(alloc, " blank")
    } else {
        format!(in alloc; " {digits}")
    }
}
