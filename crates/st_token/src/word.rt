//! Names and numbers.
ghost use Rattle.std.specs.Prelude.{◌≡◌, ◌+◌, ◌<◌, ◌≤◌, IsTrue, IfOk, not, false, length, drop, map, position, slice_index};
ghost use Rattle.std.specs.Char.{to_ascii_lowercase};
ghost use Rattle.st_token.specs.Bytes.{ends_token, is_name_byte};
ghost use Rattle.st_token.specs.Scan.{begins_number, number_of, word_kind, word_at};
ghost use Rattle.st_text.specs.Answer.{Answers};
ghost use Rattle.st_token.specs.Answer.{told, token_read, StandsBehind};

use crate::bytes::{ends_token, is_name_byte};
use crate::{SexpFault, Token, TokenKind};
use st_text::Letters;
use std::alloc::{AllocError, Global};

/// Whether the word is to be a number: it begins with a digit, or with a minus and a digit.
fn begins_number(word: &[u8]) -> bool
    ensures { result ≡ begins_number word.now }
{
    match word {
        [b'-', second, ..] => second.is_ascii_digit(),
        [first, ..] => first.is_ascii_digit(),
        [] => false,
    }
}

/// The number that the word writes, where it has no other byte and fits 64 bits.
fn number_of(word: &[u8]) -> Option<i64>
    requires { IsTrue (begins_number word.now) }
    ensures { result ≡ number_of word.now }
{
    let Ok(text) = str::from_utf8(word) else {
        return None;
    };
    text.parse::<i64>().ok()
}

/// The name in small letters.
fn small_letters(alloc: Global, name: &[u8]) -> Result<Letters, AllocError>
    requires { position (λ b. not (is_name_byte b)) name.now ≡ None }
    ensures { IfOk result (λ small. small ≡ map to_ascii_lowercase name.now) }
{
    let small: Vec<u8> = name.iter().map(|b| b.to_ascii_lowercase()).collect(alloc)?;
    Ok(Letters::from_utf8(small))
}

/// The place in the word of its first byte that no name has.
fn first_stray(word: &[u8]) -> Option<usize>
    ensures { result ≡ position (λ b. not (is_name_byte b)) word.now }
{
    word.iter().position(|b| !is_name_byte(*b))
}

/// What the word is that begins at the place `from`.
fn word_kind(alloc: Global, word: &[u8], from: u32) -> Result<TokenKind, SexpFault>
    requires { from + length word.now ≤ 1048576 }
    ensures { Answers told result (word_kind from word.now) }
{
    if begins_number(word) {
        return match number_of(word) {
            Some(number) => Ok(TokenKind::Number(number)),
            None => Err(SexpFault::BadNumber { place: from }),
        };
    }
    match first_stray(word) {
        Some(i) => Err(SexpFault::Stray {
            place: from + i as u32,
        }),
        None => Ok(TokenKind::Name(small_letters(alloc, word)?)),
    }
}

/// The place in the text of its first byte that no token goes past.
fn first_end(text: &[u8]) -> Option<usize>
    ensures { result ≡ position ends_token text.now }
{
    text.iter().position(|b| ends_token(*b))
}

/// The name or the number that stands at the place `from`.
pub(crate) fn read_word(alloc: Global, bytes: &[u8], from: usize) -> Result<Token, SexpFault>
    requires at { from < length bytes.now }
    requires size { length bytes.now ≤ 1048576 }
    requires begins { ends_token (slice_index bytes.now from) ≡ false }
    ensures read { Answers told (token_read bytes.now result) (word_at (length bytes.now) (drop from bytes.now)) }
    ensures within { IfOk result (StandsBehind bytes.now from) }
{
    let rest = &bytes[from..];
    let len = first_end(rest).unwrap_or(rest.len());
    let kind = word_kind(alloc, &rest[..len], from as u32)?;
    Ok(Token {
        kind,
        from: from as u32,
        to: (from + len) as u32,
    })
}
