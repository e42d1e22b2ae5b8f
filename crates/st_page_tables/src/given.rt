//! What the words of a case stand for: bytes, numbers, kinds of values, and what is wanted of a page.
ghost use Rattle.std.specs.Prelude.{◌≤◌, length, IfSome};
ghost use Rattle.st_image.specs.Grammar.{IsFair};

use st_image::Wanted;
use st_values::Kind;
use std::str::SplitWhitespace;

/// The next word, or nothing.
pub fn next_word<'a>(words: &mut SplitWhitespace<'a>) -> &'a str {
    words.next().unwrap_or("")
}

/// Writes into bytes what words stand for: hexadecimal digits stand from where those before them ended, or from a place
/// on if that stands in front of them with a `=`, and `-` stands for nothing. False where a word is none of these, or where
/// there is no room for its bytes.
pub fn is_filled(into: &mut [u8], words: SplitWhitespace<'_>) -> bool {
    let mut at = 0;
    for word in words {
        match put_word(into, at, word) {
            Some(end) => at = end,
            None => return false,
        }
    }
    true
}

/// Writes what a word stands for, and answers where it ends.
fn put_word(into: &mut [u8], at: usize, word: &str) -> Option<usize> {
    if word == "-" {
        return Some(at);
    }
    match word.split_once('=') {
        Some((place, digits)) => put(into, place.parse::<usize>().unwrap_or(usize::MAX), digits),
        None => put(into, at, word),
    }
}

/// Writes bytes by their digits from a place on, and answers where they end.
fn put(into: &mut [u8], at: usize, digits: &str) -> Option<usize> {
    let size = digits.len() / 2;
    if at > into.len() || size > into.len() - at {
        return None;
    }
    match hex::decode_to_slice(digits, &mut into[at..at + size]) {
        Ok(()) => Some(at + size),
        Err(_) => None,
    }
}

fn number(word: &str) -> u32 {
    word.parse::<u32>().unwrap_or(0)
}

fn small_number(word: &str) -> u16 {
    word.parse::<u16>().unwrap_or(0)
}

/// The kind of values that a word names: `int`, `bool`, `text:` with the most bytes, or `entity`.
pub fn kind_of(word: &str) -> Option<Kind> {
    match word {
        "int" => Some(Kind::Int),
        "bool" => Some(Kind::Bool),
        "entity" => Some(Kind::Entity(0)),
        _ => text_kind(word.strip_prefix("text:").unwrap_or("")),
    }
}

fn text_kind(limit: &str) -> Option<Kind> {
    Some(Kind::Text(limit.parse::<u8>().ok()?))
}

/// What the first words of a front want of a page: `free`, `schema`, `roots`, or `chain`, `leaf` or `node` with the number
/// of a store, and how many bytes a key and a row have.
pub fn wanted_of(words: &mut SplitWhitespace<'_>) -> Option<Wanted>
    ensures { IfSome result IsFair }
{
    match next_word(words) {
        "free" => Some(Wanted::Free),
        "schema" => Some(Wanted::Schema),
        "roots" => Some(Wanted::Roots),
        word => {
            let store = number(next_word(words));
            let key = small_number(next_word(words));
            let width = small_number(next_word(words));
            wanted_rows(word, store, key, width)
        }
    }
}

fn wanted_rows(word: &str, store: u32, key: u16, width: u16) -> Option<Wanted>
    ensures { IfSome result IsFair }
{
    if key < 1 || key > 207 || width < key || width > 1000 {
        return None;
    }
    match word {
        "chain" => Some(Wanted::Chain { store, key, width }),
        "leaf" => Some(Wanted::Leaf { store, key, width }),
        "node" => Some(Wanted::Node { store, key, width }),
        _ => None,
    }
}
