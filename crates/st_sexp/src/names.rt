//! Which words are names.
ghost use Rattle.std.specs.Prelude.{◌≡◌};
ghost use Rattle.std.specs.List.{list_all};
ghost use Rattle.st_sexp.specs.Names.{has_name_bytes, is_name, is_name_part, is_reserved};

/// Whether a word has a meaning of its own, so that it is no name.
fn is_reserved(name: &[u8]) -> bool
    ensures { result ≡ is_reserved name.now }
{
    name == b"integer".as_slice()
        || name == b"boolean".as_slice()
        || name == b"string".as_slice()
        || name == b"set-of".as_slice()
        || name == b"null".as_slice()
        || name == b"true".as_slice()
        || name == b"false".as_slice()
}

/// Whether a name may have the byte behind its first one.
fn is_name_part(byte: u8) -> bool
    ensures { result ≡ is_name_part byte }
{
    byte.is_ascii_lowercase() || byte.is_ascii_digit() || byte == b'-'
}

/// Whether a name may have the bytes behind its first one.
fn are_name_parts(bytes: &[u8]) -> bool
    ensures { result ≡ list_all is_name_part bytes.now }
{
    bytes.iter().all(|byte| is_name_part(*byte))
}

/// Whether a word is a letter, then letters, digits and `-`.
fn has_name_bytes(word: &[u8]) -> bool
    ensures { result ≡ has_name_bytes word.now }
{
    match word {
        [] => false,
        [first, rest @ ..] => first.is_ascii_lowercase() && are_name_parts(rest),
    }
}

/// Whether a word is a name: a letter, then letters, digits and `-`, at most 31 bytes, and none of the words
/// `integer`, `boolean`, `string`, `set-of`, `null`, `true` and `false`.
#[tactic(auto, unfolding(crate::specs::Names::is_name))]
pub fn is_name(word: &[u8]) -> bool
    ensures { result ≡ is_name word.now }
{
    has_name_bytes(word) && word.len() <= 31 && !is_reserved(word)
}
