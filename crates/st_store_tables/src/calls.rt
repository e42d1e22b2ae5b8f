//! Calls on a store, and what they are answered.
ghost use Rattle.std.specs.Prelude.{◌≡◌, ◌<◌, length, IfOk, IsTrue};
ghost use Rattle.st_store.specs.Stores.{Fits};
ghost use Rattle.st_store.specs.Chain.{left_in_chain};

use crate::given::number;
use crate::pages::{tell_pages, write_bytes};
use crate::series::series;
use crate::store::Asked;
use st_memory_pages::MemoryPages;
use st_page::PageFault;
use st_store::{Cursor, Store};
use std::alloc::{AllocError, Global};
use std::fmt::Write;
use std::str::SplitWhitespace;

/// The most bytes of a row.
pub const MOST: usize = 1000;

/// Makes calls, parted by commas, up to the first one that is answered a fault, and adds the answers.
pub fn run(
    alloc: Global,
    asked: Asked,
    pages: &mut MemoryPages,
    text: &str,
    out: &mut String,
) -> Result<(), PageFault> {
    for part in text.split(',') {
        let mut words = part.split_whitespace();
        let word = words.next().unwrap_or("");
        call(alloc, asked, pages, word, &mut words, out)?;
    }
    Ok(())
}

/// One call: `+` with a row, `-`, `?` or `@` with a key, `write` with a page, a place and bytes, `pages`, or `series` with how
/// many calls, a seed and how many keys.
fn call(
    alloc: Global,
    asked: Asked,
    pages: &mut MemoryPages,
    word: &str,
    words: &mut SplitWhitespace<'_>,
    out: &mut String,
) -> Result<(), PageFault> {
    match word {
        "write" => write_bytes(alloc, pages, words),
        "pages" => tell_pages(alloc, pages, out),
        "series" => {
            let count = number(words);
            let seed = number(words);
            series(alloc, asked, pages, count, seed, number(words), out)
        }
        _ => of_row(alloc, asked, pages, word, words.next().unwrap_or(""), out),
    }
}

/// A call with a row or a key, by its digits.
fn of_row(
    alloc: Global,
    asked: Asked,
    pages: &mut MemoryPages,
    word: &str,
    digits: &str,
    out: &mut String,
) -> Result<(), PageFault> {
    let mut bytes = [0; MOST];
    if word == "+" {
        let row = &mut bytes[..asked.width()];
        if hex::decode_to_slice(digits, row).is_err() {
            return said(out.push_str(" no row"));
        }
        return insert(alloc, asked, pages, row, out);
    }
    let key = &mut bytes[..asked.key()];
    if hex::decode_to_slice(digits, key).is_err() {
        return said(out.push_str(" no key"));
    }
    of_key(alloc, asked, pages, word, key, out)
}

/// A call with a key.
fn of_key(
    alloc: Global,
    asked: Asked,
    pages: &mut MemoryPages,
    word: &str,
    key: &[u8],
    out: &mut String,
) -> Result<(), PageFault>
    requires { length key.now ≡ asked.key }
{
    match word {
        "-" => remove(alloc, asked, pages, key, out),
        "?" => find(alloc, asked, pages, key, out),
        "@" => list(alloc, asked, pages, key, out),
        _ => said(out.push_str(" no call")),
    }
}

/// Puts a row in: `new`, or `in place` of one.
fn insert(
    alloc: Global,
    asked: Asked,
    pages: &mut MemoryPages,
    row: &[u8],
    out: &mut String,
) -> Result<(), PageFault>
    requires { length row.now ≡ asked.width }
{
    let was = asked.store().insert(alloc, pages, row)?;
    said(out.push_str(if was { " in place" } else { " new" }))
}

/// Takes a row out: `gone`, or `none`.
fn remove(
    alloc: Global,
    asked: Asked,
    pages: &mut MemoryPages,
    key: &[u8],
    out: &mut String,
) -> Result<(), PageFault>
    requires { length key.now ≡ asked.key }
{
    let was = asked.store().remove(alloc, pages, key)?;
    said(out.push_str(if was { " gone" } else { " none" }))
}

/// Looks for a row: its digits, or `none`.
fn find(
    alloc: Global,
    asked: Asked,
    pages: &mut MemoryPages,
    key: &[u8],
    out: &mut String,
) -> Result<(), PageFault>
    requires { length key.now ≡ asked.key }
{
    let mut bytes = [0; MOST];
    let row = &mut bytes[..asked.width()];
    if asked.store().find(alloc, pages, key, row)? {
        push_digits(alloc, row, out)
    } else {
        said(out.push_str(" none"))
    }
}

/// All rows whose keys aren't below one.
pub fn list(
    alloc: Global,
    asked: Asked,
    pages: &mut MemoryPages,
    key: &[u8],
    out: &mut String,
) -> Result<(), PageFault>
    requires { length key.now ≡ asked.key }
{
    let mut cursor = asked.store().seek(alloc, pages, key)?;
    said(out.push_str(" ["))?;
    while has_next(alloc, asked, pages, &mut cursor, out)? {}
    said(out.push_str(" ]"))
}

/// The next row, if there is one; whether there was.
fn has_next(
    alloc: Global,
    asked: Asked,
    pages: &mut MemoryPages,
    cursor: &mut Cursor,
    out: &mut String,
) -> Result<bool, PageFault>
    requires { Fits asked cursor.old }
    ensures fits { Fits asked cursor.new }
    ensures fewer { IfOk result (λ more. IsTrue more → left_in_chain asked cursor.new < left_in_chain asked cursor.old) }
{
    let mut bytes = [0; MOST];
    let row = &mut bytes[..asked.width()];
    let more = asked.store().advance(alloc, pages, cursor, row)?;
    if more {
        push_digits(alloc, row, out)?;
    }
    Ok(more)
}

/// Adds the digits of a row behind a blank: of a long one those of its first 16 bytes, and how many more it has.
fn push_digits(alloc: Global, row: &[u8], out: &mut String) -> Result<(), PageFault> {
    said(out.push(' '))?;
    let told = row.len().min(if row.len() <= 24 { 24 } else { 16 });
    said(push_hex(alloc, &row[..told], out))?;
    let more = row.len() - told;
    if more == 0 {
        return Ok(());
    }
    said(write!(out, "+{more}"))
}

fn push_hex(alloc: Global, bytes: &[u8], out: &mut String) -> Result<(), AllocError> {
    let digits = hex::encode(alloc, bytes)?;
    out.push_str(digits.as_str())
}

/// Whether there was memory for what is told.
pub fn said(told: Result<(), AllocError>) -> Result<(), PageFault> {
    match told {
        Ok(()) => Ok(()),
        Err(_) => Err(PageFault::Memory),
    }
}
