//! Edits of the pages of a database, and which calls of them are to fail.

use st_image::Page;
use std::alloc::{AllocError, Global};
use std::str::SplitWhitespace;

/// The most bytes that an edit writes.
const MOST: usize = 128;

/// Pages, and the numbers of the calls that are to fail.
#[derive(Drop)]
pub struct Given {
    /// The pages, from page 0 on.
    pub pages: Vec<Page>,
    /// The numbers of the calls, from 1.
    pub failing: Vec<u64>,
}

impl Given {
    /// Takes the edits of a case, parted by commas, one after another. False where one is no edit.
    pub fn take_all(&mut self, text: &str) -> Result<bool, AllocError> {
        for part in text.split(',') {
            if !self.take(part)? {
                return Ok(false);
            }
        }
        Ok(true)
    }

    /// Takes an edit: `-` for none, `cut` with a number for so many pages that are kept, `failing` with the number of a call,
    /// or the bytes of a page from a place on.
    fn take(&mut self, part: &str) -> Result<bool, AllocError> {
        let mut words = part.split_whitespace();
        let word = next_word(&mut words);
        match word {
            "-" => Ok(true),
            "cut" => Ok(self.cut(number(next_word(&mut words)))),
            "failing" => self.fail(number(next_word(&mut words))),
            _ => self.edit(word),
        }
    }

    fn fail(&mut self, call: u32) -> Result<bool, AllocError> {
        self.failing.push(u64::from(call))?;
        Ok(true)
    }

    /// Keeps so many pages.
    fn cut(&mut self, count: u32) -> bool {
        self.pages.truncate(count as usize);
        true
    }

    /// Writes the bytes of an edit `PAGE:PLACE=HEX`. Pages up to the one that it names are blank where there were none.
    fn edit(&mut self, word: &str) -> Result<bool, AllocError> {
        let Some((at, digits)) = word.split_once('=') else {
            return Ok(false);
        };
        let Some((page, place)) = at.split_once(':') else {
            return Ok(false);
        };
        let page = number(page) as usize;
        self.reach(page)?;
        match self.pages.get_mut(page) {
            Some(image) => Ok(is_written(image, number(place) as usize, digits)),
            None => Ok(false),
        }
    }

    /// Adds blank pages up to a page, if that is below 1,000.
    fn reach(&mut self, page: usize) -> Result<(), AllocError> {
        if page < 1000 {
            for _ in self.pages.len()..page + 1 {
                self.pages.push(Page::blank())?;
            }
        }
        Ok(())
    }
}

/// Writes bytes by their digits into a page, from a place on. False where there are no bytes or no room.
fn is_written(image: &mut Page, place: usize, digits: &str) -> bool {
    let mut bytes = [0; MOST];
    let size = digits.len() / 2;
    if size > MOST || place > 4096 - size {
        return false;
    }
    if hex::decode_to_slice(digits, &mut bytes[..size]).is_err() {
        return false;
    }
    image.write(place, &bytes[..size]);
    true
}

/// The next word, or nothing.
pub fn next_word<'a>(words: &mut SplitWhitespace<'a>) -> &'a str {
    words.next().unwrap_or("")
}

/// The number that a word spells; the greatest one where it spells none.
pub fn number(word: &str) -> u32 {
    word.parse::<u32>().unwrap_or(u32::MAX)
}
