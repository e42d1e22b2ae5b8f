ghost use Rattle.std.specs.Prelude.{◌≡◌, ◌+◌, ◌≤◌, length, replicate};
ghost use Rattle.st_image.specs.Bytes.{part};
ghost use Rattle.st_image.specs.Fields.{blank, kind_of, count_of, store_of, next_of, last_serial_of, with_part, with_kind, with_count, with_store, with_next, with_last_serial};

use byteorder::{BigEndian, ByteOrder};
use std::marker::Model;

/// How many bytes a page has.
pub const PAGE_SIZE: usize = 4096;

/// The bytes of a page, which contracts see as a list.
#[derive(Clone, Copy, PartialEq, Eq)]
pub struct Page {
    bytes: [u8; PAGE_SIZE],
}

impl Model for Page {
    ghost use Rattle.std.specs.Prelude.{ℕ, List};

    ghost Value = { List ℕ };

    ghost view = { λ a. a.bytes };

    ghost inverse = { λ bytes. record { bytes = bytes } };
}

impl Page {
    /// A page that is not used: all its bytes are zero.
    pub fn blank() -> Page
        ensures { result ≡ blank }
    {
        Page {
            bytes: [0; PAGE_SIZE],
        }
    }

    /// All its bytes.
    pub fn bytes(&self) -> &[u8]
        ensures same { result.now ≡ self.now }
        ensures size { length result.now ≡ 4096 }
    {
        &self.bytes
    }

    /// Its kind, from 0 to 5 in a sound page.
    pub fn kind(&self) -> u8
        ensures { result ≡ kind_of self.now }
    {
        self.bytes[0]
    }

    /// How much stands in it: bytes of the schema, rows, children or roots.
    pub fn count(&self) -> u16
        ensures { result ≡ count_of self.now }
    {
        BigEndian::read_u16(&self.bytes[2..])
    }

    /// The number of its store.
    pub fn store(&self) -> u32
        ensures { result ≡ store_of self.now }
    {
        BigEndian::read_u32(&self.bytes[4..])
    }

    /// The page behind it, 0 for none.
    pub fn next(&self) -> u32
        ensures { result ≡ next_of self.now }
    {
        BigEndian::read_u32(&self.bytes[8..])
    }

    /// The last serial that was given out, of a store of entities.
    pub fn last_serial(&self) -> u32
        ensures { result ≡ last_serial_of self.now }
    {
        BigEndian::read_u32(&self.bytes[12..])
    }

    /// Sets its kind.
    pub fn set_kind(&mut self, kind: u8)
        ensures { self.new ≡ with_kind kind self.old }
    {
        self.write(0, &[kind]);
    }

    /// Sets how much stands in it.
    pub fn set_count(&mut self, count: u16)
        ensures { self.new ≡ with_count count self.old }
    {
        self.write(2, &count.to_be_bytes());
    }

    /// Sets the number of its store.
    pub fn set_store(&mut self, store: u32)
        ensures { self.new ≡ with_store store self.old }
    {
        self.write(4, &store.to_be_bytes());
    }

    /// Sets the page behind it, 0 for none.
    pub fn set_next(&mut self, next: u32)
        ensures { self.new ≡ with_next next self.old }
    {
        self.write(8, &next.to_be_bytes());
    }

    /// Sets the last serial that was given out, of a store of entities.
    pub fn set_last_serial(&mut self, serial: u32)
        ensures { self.new ≡ with_last_serial serial self.old }
    {
        self.write(12, &serial.to_be_bytes());
    }

    /// Writes bytes into it from a place on.
    pub fn write(&mut self, at: usize, bytes: &[u8])
        requires { at + length bytes.now ≤ 4096 }
        ensures { self.new ≡ with_part at bytes.now self.old }
    {
        self.bytes[at..at + bytes.len()].copy_from_slice(bytes);
    }

    /// Makes it the same as another one.
    pub fn copy_from(&mut self, other: &Page)
        ensures { self.new ≡ other.now }
    {
        self.bytes.copy_from_slice(&other.bytes);
    }

    /// Copies so many bytes from one place of it to another one.
    pub fn shift(&mut self, from: usize, to: usize, size: usize)
        requires from { from + size ≤ 4096 }
        requires to { to + size ≤ 4096 }
        ensures { self.new ≡ with_part to (part from size self.old) self.old }
    {
        self.bytes.copy_within(from..from + size, to);
    }

    /// Makes so many of its bytes zero from a place on.
    pub fn clear(&mut self, at: usize, size: usize)
        requires { at + size ≤ 4096 }
        ensures { self.new ≡ with_part at (replicate size 0) self.old }
    {
        self.bytes[at..at + size].fill(0);
    }
}
