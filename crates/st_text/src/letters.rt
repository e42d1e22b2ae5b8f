ghost use Rattle.std.specs.Prelude.{◌≡◌, [], ◌++◌, ◌↔◌, length, take, slice_get, encode_utf8, string_bytes, IsTrue, IsUtf8, IfOk, OnOk, OnErr};
ghost use Rattle.std.specs.Str.{bytes_eq};
ghost use Rattle.std.specs.Cmp.{partial_equiv_from_equiv};
ghost use Rattle.std.specs.Cmp.Lexicographic.{nat_list_eq_equiv};

use super::Duplicate;
use std::alloc::{AllocError, Global};
use std::marker::Model;

/// A text that contracts see as the list of its bytes, which is always UTF-8.
#[derive(Debug, Drop)]
pub struct Letters {
    text: String,
}

impl Model for Letters {
    ghost use Rattle.std.specs.Prelude.{ℕ, List, string_bytes};
    ghost use Rattle.std.specs.Coded.{coded_ℕ, coded_list};

    ghost Value = { List ℕ };

    ghost coded = { coded_list coded_ℕ };

    ghost view = { λ it. string_bytes it.text };
}

impl Letters {
    /// The empty text, which takes no memory yet.
    pub fn new(alloc: Global) -> Letters
        ensures { result ≡ [] }
    {
        Letters {
            text: String::new(alloc),
        }
    }

    /// A copy of `text`, or `AllocError` where there is no memory for it.
    pub fn from_text(alloc: Global, text: &str) -> Result<Letters, AllocError>
        ensures { IfOk result (λ letters. letters ≡ text.now) }
    {
        let text = String::from_str(alloc, text)?;
        Ok(Letters { text })
    }

    /// The text of a `String`, moved.
    pub fn from_string(text: String) -> Letters
        ensures { result ≡ string_bytes text }
    {
        Letters { text }
    }

    /// The text of some bytes, moved. They have to be UTF-8.
    pub fn from_utf8(bytes: Vec<u8>) -> Letters
        requires { IsUtf8 bytes.items }
        ensures { result ≡ bytes.items }
    {
        let text = String::from_utf8(bytes).unwrap();
        Letters { text }
    }

    /// The text as a `String`, moved.
    pub fn into_string(self) -> String
        ensures { string_bytes result ≡ self }
    {
        self.text
    }

    /// Adds one character to the end. On `AllocError` the text stays as it was.
    pub fn push(&mut self, letter: char) -> Result<(), AllocError>
        ensures ok { OnOk result (self.new ≡ self.old ++ encode_utf8 letter) }
        ensures err { OnErr result (self.new ≡ self.old) }
        ensures kept { take (length self.old) self.new ≡ self.old }
    {
        self.text.push(letter)
    }

    /// Adds a text to the end. On `AllocError` the text stays as it was.
    pub fn push_str(&mut self, more: &str) -> Result<(), AllocError>
        ensures ok { OnOk result (self.new ≡ self.old ++ more.now) }
        ensures err { OnErr result (self.new ≡ self.old) }
        ensures kept { take (length self.old) self.new ≡ self.old }
    {
        self.text.push_str(more)
    }

    /// How many bytes the text has.
    pub fn len(&self) -> usize
        ensures { result ≡ length self.now }
    {
        self.text.len()
    }

    /// Whether the text has no bytes.
    pub fn is_empty(&self) -> bool
        ensures { IsTrue result ↔ (self.now ≡ []) }
    {
        self.text.is_empty()
    }

    /// The byte at a place, counted from 0, or `None` from the end of the text on.
    pub fn get(&self, at: usize) -> Option<u8>
        ensures { result ≡ slice_get self.now at }
    {
        self.text.as_bytes().get(at).copied()
    }

    /// The bytes of the text.
    pub fn as_slice(&self) -> &[u8]
        ensures value { result.now ≡ self.now }
        ensures utf8 { IsUtf8 result.now }
    {
        self.as_str().as_bytes()
    }

    /// The text, borrowed.
    pub fn as_str(&self) -> &str
        ensures value { result.now ≡ self.now }
        ensures utf8 { IsUtf8 self.now }
    {
        self.text.as_str()
    }
}

impl Duplicate for Letters {
    fn copy(&self, alloc: Global) -> Result<Letters, AllocError> {
        Letters::from_text(alloc, self.as_str())
    }
}

impl PartialEq for Letters {
    ghost eq = { bytes_eq };

    ghost laws = { partial_equiv_from_equiv nat_list_eq_equiv };

    fn eq(&self, other: &Letters) -> bool {
        self.as_str() == other.as_str()
    }
}

impl Eq for Letters {
    ghost laws = { nat_list_eq_equiv };
}
