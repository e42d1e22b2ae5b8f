//! Pages by themselves: bytes that are written, and what stands in them.
ghost use Rattle.std.specs.Prelude.{◌<◌, IsSome, OnOk};

use crate::calls::{MOST, said};
use crate::given::number;
use st_image::Page;
use st_memory_pages::MemoryPages;
use st_page::PageFault;
use st_pages::Pages;
use std::alloc::Global;
use std::fmt::Write;
use std::str::SplitWhitespace;

/// How many pages are told.
const TOLD: u32 = 24;

/// Gets a page, writes bytes into it from a place on, and puts it.
pub fn write_bytes<P: Pages>(
    alloc: Global,
    pages: &mut P,
    words: &mut SplitWhitespace<'_>,
) -> Result<(), PageFault> {
    let page = number(words);
    let place = number(words) as usize;
    let digits = words.next().unwrap_or("");
    let mut bytes = [0; MOST];
    let size = digits.len() / 2;
    if page >= 65536 || size > MOST || place > 4096 - size {
        return Ok(());
    }
    if hex::decode_to_slice(digits, &mut bytes[..size]).is_err() {
        return Ok(());
    }
    let mut frame = Page::blank();
    get(alloc, pages, page, &mut frame)?;
    frame.write(place, &bytes[..size]);
    pages.put(alloc, page, &frame)
}

/// Gets a page.
fn get<P: Pages>(alloc: Global, pages: &mut P, page: u32, frame: &mut Page) -> Result<(), PageFault>
    requires { page < 65536 }
    ensures { OnOk result (IsSome ((P.attempt pages.new).seen page)) }
{
    pages.get(alloc, page, frame)
}

/// Tells of each of the first pages that isn't blank its number, its kind, what it counts, and the page behind it.
pub fn tell_pages(
    alloc: Global,
    pages: &mut MemoryPages,
    out: &mut String,
) -> Result<(), PageFault> {
    for page in 0..TOLD {
        tell_page(alloc, pages, page, out)?;
    }
    Ok(())
}

fn tell_page(
    alloc: Global,
    pages: &mut MemoryPages,
    page: u32,
    out: &mut String,
) -> Result<(), PageFault>
    requires { page < 65536 }
{
    let mut frame = Page::blank();
    pages.get(alloc, page, &mut frame)?;
    let kind = frame.kind();
    if kind == 0 {
        return Ok(());
    }
    let count = frame.count();
    let next = frame.next();
    said(write!(out, " {page}:{kind}:{count}:{next}"))
}
