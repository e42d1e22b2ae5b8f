//! Many rows, put in and taken out by a generator of numbers.

use crate::calls::{MOST, list, said};
use crate::store::Asked;
use st_memory_pages::MemoryPages;
use st_page::PageFault;
use st_store::Store;
use std::alloc::Global;

/// The next number of the generator, below 2,147,483,648.
fn following(number: u32) -> u32 {
    let next = u64::from(number) * 1_103_515_245 + 12_345;
    (next % 2_147_483_648) as u32
}

/// Puts in and takes out rows, so many as `count` says, and then lists all. Each takes two numbers of the generator: of the first
/// one the higher bits, by their rest by `keys`, are the key; where those of the second are odd a row is taken out, and else
/// put in, whose other bytes are the second's last one. For each the answer is a digit: 1 where the key was there.
pub fn series(
    alloc: Global,
    asked: Asked,
    pages: &mut MemoryPages,
    count: u32,
    seed: u32,
    keys: u32,
    out: &mut String,
) -> Result<(), PageFault> {
    let mut number = seed % 2_147_483_648;
    said(out.push(' '))?;
    for _ in 0..count {
        number = following(number);
        let key = (number / 65536) % keys.max(1);
        number = following(number);
        let was = change(alloc, asked, pages, key, number / 65536)?;
        said(out.push(if was { '1' } else { '0' }))?;
    }
    let zeros = [0; MOST];
    list(alloc, asked, pages, &zeros[..asked.key()], out)
}

/// Puts in or takes out the row of a number.
fn change(
    alloc: Global,
    asked: Asked,
    pages: &mut MemoryPages,
    key: u32,
    other: u32,
) -> Result<bool, PageFault> {
    let mut bytes = [(other % 256) as u8; MOST];
    let size = asked.key();
    bytes[..size].fill(0);
    write_key(&mut bytes[..size], key);
    if other % 2 == 1 {
        asked.store().remove(alloc, pages, &bytes[..size])
    } else {
        asked.store().insert(alloc, pages, &bytes[..asked.width()])
    }
}

/// Writes a number at the end of a key.
fn write_key(key: &mut [u8], number: u32) {
    let digits = number.to_be_bytes();
    let size = key.len().min(4);
    let from = key.len() - size;
    key[from..].copy_from_slice(&digits[4 - size..]);
}
