//! The next token of a text.
ghost use Rattle.std.specs.Prelude.{◌≡◌, ◌+◌, ◌<◌, ◌≤◌, ◌||◌, ◌==◌, false, length, drop, slice_index, IfOk, IfSome, IsUtf8};
ghost use Rattle.st_token.specs.Bytes.{is_blank};
ghost use Rattle.st_token.specs.Scan.{next_of, token_at};
ghost use Rattle.st_text.specs.Answer.{Answers};
ghost use Rattle.st_token.specs.Answer.{told, token_read, next_read, StandsBehind};

use crate::gap::skip_gap;
use crate::quote::read_quoted;
use crate::word::read_word;
use crate::{SexpFault, Token, TokenKind};
use std::alloc::Global;

/// The parenthesis at the place `from`.
fn parenthesis(kind: TokenKind, from: usize) -> Token
    requires { from < 1048576 }
    ensures { result ≡ record { kind = kind; from = from; to = from + 1 } }
{
    Token {
        kind,
        from: from as u32,
        to: from as u32 + 1,
    }
}

/// The token that stands at the place `from`, where there is no blank and no comment.
fn token_at(alloc: Global, bytes: &[u8], from: usize) -> Result<Token, SexpFault>
    requires at { from < length bytes.now }
    requires size { length bytes.now ≤ 1048576 }
    requires begins { (is_blank (slice_index bytes.now from) || slice_index bytes.now from == 59) ≡ false }
    requires utf8 { IsUtf8 bytes.now }
    ensures read { Answers told (token_read bytes.now result) (token_at (length bytes.now) (drop from bytes.now)) }
    ensures within { IfOk result (StandsBehind bytes.now from) }
{
    match bytes[from] {
        b'(' => Ok(parenthesis(TokenKind::Open, from)),
        b')' => Ok(parenthesis(TokenKind::Close, from)),
        b'"' => read_quoted(alloc, bytes, from),
        _ => read_word(alloc, bytes, from),
    }
}

/// The next token at or behind the place `at`; None where only blanks and comments are left.
///
/// Places are byte positions from 0 in the whole of `bytes`, which has at most 1 MiB; a caller goes on at the `to` of the token.
///
/// Refusals: `Stray` for a byte that no token has or a backslash with no escape behind it, `BadNumber` for a number with another
/// byte in it or outside 64 bits, and `Unclosed` for a quoted text with no end, each with its place; `Memory`.
pub fn next(alloc: Global, bytes: &[u8], at: usize) -> Result<Option<Token>, SexpFault>
    requires at { at ≤ length bytes.now }
    requires size { length bytes.now ≤ 1048576 }
    requires utf8 { IsUtf8 bytes.now }
    ensures read { Answers told (next_read bytes.now result) (next_of (length bytes.now) (drop at bytes.now)) }
    ensures within { IfOk result (λ found. IfSome found (StandsBehind bytes.now at)) }
{
    let from = skip_gap(bytes, at);
    if from == bytes.len() {
        return Ok(None);
    }
    Ok(Some(token_at(alloc, bytes, from)?))
}
