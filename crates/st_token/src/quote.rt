//! Quoted texts.
ghost use Rattle.std.specs.Prelude.{◌≡◌, ◌+◌, ◌<◌, ◌≤◌, IfOk, false, length, drop, IsUtf8, slice_index};
ghost use Rattle.st_token.specs.Scan.{escape_of, quoted, quote_read};
ghost use Rattle.st_text.specs.Answer.{Answers};
ghost use Rattle.st_token.specs.Answer.{told, content_read, token_read, StandsBehind};

use crate::bytes::is_escape;
use crate::{SexpFault, Token, TokenKind};
use st_text::Letters;
use std::alloc::Global;

/// The byte that an escape stands for: n for the line feed, a quote or a backslash for itself.
fn escape_of(byte: u8) -> u8
    ensures { result ≡ escape_of byte }
{
    if byte == b'n' { b'\n' } else { byte }
}

/// What the text behind the quote at the place `from` stands for, and the place behind its closing quote.
fn quoted(alloc: Global, bytes: &[u8], from: usize) -> Result<(Letters, usize), SexpFault>
    requires at { from < length bytes.now }
    requires size { length bytes.now ≤ 1048576 }
    requires quote { slice_index bytes.now from ≡ 34 }
    requires utf8 { IsUtf8 bytes.now }
    ensures read { Answers told (content_read bytes.now result) (quoted (length bytes.now) from false (drop (from + 1) bytes.now)) }
    ensures from { IfOk result (λ found. from + 1 < found.1) }
    ensures within { IfOk result (λ found. found.1 ≤ length bytes.now) }
{
    let mut content = Vec::new(alloc);
    let mut in_escape = false;
    for i in from + 1..bytes.len() {
        let byte = bytes[i];
        if in_escape {
            if !is_escape(byte) {
                return Err(SexpFault::Stray {
                    place: (i - 1) as u32,
                });
            }
            content.push(escape_of(byte))?;
            in_escape = false;
        } else if byte == b'"' {
            return Ok((Letters::from_utf8(content), i + 1));
        } else if byte == b'\\' {
            in_escape = true;
        } else {
            content.push(byte)?;
        }
    }
    Err(SexpFault::Unclosed { place: from as u32 })
}

/// The quoted text that stands at the place `from`.
pub(crate) fn read_quoted(alloc: Global, bytes: &[u8], from: usize) -> Result<Token, SexpFault>
    requires at { from < length bytes.now }
    requires size { length bytes.now ≤ 1048576 }
    requires quote { slice_index bytes.now from ≡ 34 }
    requires utf8 { IsUtf8 bytes.now }
    ensures read { Answers told (token_read bytes.now result) (quote_read (length bytes.now) from (quoted (length bytes.now) from false (drop (from + 1) bytes.now))) }
    ensures within { IfOk result (StandsBehind bytes.now from) }
{
    let (content, to) = quoted(alloc, bytes, from)?;
    Ok(Token {
        kind: TokenKind::Quoted(content),
        from: from as u32,
        to: to as u32,
    })
}
