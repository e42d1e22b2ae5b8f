//! What a byte of a text is.
ghost use Rattle.std.specs.Prelude.{◌≡◌};
ghost use Rattle.st_token.specs.Bytes.{is_blank, ends_token, is_name_byte, is_escape};

/// Whether the byte is a space, a tab, a line feed, a carriage return or a form feed.
pub(crate) fn is_blank(byte: u8) -> bool
    ensures { result ≡ is_blank byte }
{
    matches!(byte, b' ' | b'\t' | b'\n' | b'\r' | b'\x0c')
}

/// Whether no token goes past the byte: a blank, a parenthesis, a quote or a semicolon.
pub(crate) fn ends_token(byte: u8) -> bool
    ensures { result ≡ ends_token byte }
{
    is_blank(byte) || matches!(byte, b'(' | b')' | b'"' | b';')
}

/// Whether a name may have the byte.
pub(crate) fn is_name_byte(byte: u8) -> bool
    ensures { result ≡ is_name_byte byte }
{
    byte.is_ascii_alphanumeric() || b"-_.#:/=<>+*?!".contains(&byte)
}

/// Whether the byte may stand behind a backslash: a quote, a backslash or the letter n.
pub(crate) fn is_escape(byte: u8) -> bool
    ensures { result ≡ is_escape byte }
{
    matches!(byte, b'"' | b'\\' | b'n')
}
