//! A case, and the short notation of its text.
//!
//! `{64 (}` stands for 64 times `(`, where a `#` in what is repeated is the number of the repetition, from 0 on; inside
//! such braces `{{4 a#}}` is written out first. `{e282}` stands for bytes in hexadecimal digits, and `{}` for nothing.
//! `^` marks a place, and is no part of the text.

use std::alloc::{AllocError, Global};

/// A text behind a front, and the place of its mark in both together.
#[derive(Drop)]
pub struct Case {
    pub front: Vec<u8>,
    pub text: Vec<u8>,
    pub mark: Option<usize>,
}

impl Case {
    /// The front and the text.
    pub fn whole(&self, alloc: Global) -> Result<Vec<u8>, AllocError> {
        let mut whole = self.front.as_slice().to_vec(alloc)?;
        whole.extend_from_slice(&self.text)?;
        Ok(whole)
    }

    /// The text, where it is UTF-8.
    pub fn text(&self) -> &str {
        str::from_utf8(&self.text).unwrap_or("")
    }

    /// Whether a word is the place of the mark.
    fn is_marked(&self, word: &str) -> bool {
        self.mark.is_some() && word.parse::<usize>().ok() == self.mark
    }

    /// An answer with `^` for its last word, where that is the place of the mark.
    pub fn marked(&self, alloc: Global, answer: String) -> Result<String, AllocError> {
        match answer.as_str().rsplit_once(' ') {
            Some((front, last)) if self.is_marked(last) => format!(in alloc; "{front} ^"),
            _ => Ok(answer),
        }
    }
}

/// The case that an item of a table is, behind a front.
pub fn case_of(alloc: Global, front: &str, item: &str) -> Result<Case, AllocError> {
    let front = written_out(alloc, front)?;
    let mut text = written_out(alloc, item)?;
    let mark = text.iter().position(|byte| *byte == b'^');
    if let Some(at) = mark
        && at < text.len()
    {
        text.remove(at);
    }
    let mark = mark.map(|at| at.saturating_add(front.len()));
    Ok(Case { front, text, mark })
}

/// A text without its braces.
fn written_out(alloc: Global, text: &str) -> Result<Vec<u8>, AllocError> {
    let inner = without(alloc, text, "{{", "}}")?;
    without(alloc, str::from_utf8(&inner).unwrap_or(""), "{", "}")
}

/// A text with what stands between these braces written out.
fn without(alloc: Global, text: &str, open: &str, close: &str) -> Result<Vec<u8>, AllocError> {
    let mut out = Vec::new(alloc);
    for piece in text.split(open) {
        match piece.split_once(close) {
            Some((inside, behind)) => {
                push_inside(alloc, inside, &mut out)?;
                out.extend_from_slice(behind.as_bytes())?;
            }
            None => out.extend_from_slice(piece.as_bytes())?,
        }
    }
    Ok(out)
}

/// Adds what the inside of braces stands for.
fn push_inside(alloc: Global, inside: &str, out: &mut Vec<u8>) -> Result<(), AllocError> {
    match inside.split_once(' ') {
        Some((count, text)) => push_times(alloc, text, count.parse::<u32>().unwrap_or(0), out),
        None => match hex::decode(alloc, inside) {
            Ok(bytes) => out.extend_from_slice(&bytes),
            Err(_) => Ok(()),
        },
    }
}

/// Adds a text so many times, each time with the number of the repetition in place of its first `#`.
fn push_times(alloc: Global, text: &str, count: u32, out: &mut Vec<u8>) -> Result<(), AllocError> {
    match text.split_once('#') {
        Some((before, behind)) => {
            for number in 0..count {
                let numbered = format!(in alloc; "{before}{number}{behind}")?;
                out.extend_from_slice(numbered.as_bytes())?;
            }
        }
        None => {
            for _ in 0..count {
                out.extend_from_slice(text.as_bytes())?;
            }
        }
    }
    Ok(())
}
