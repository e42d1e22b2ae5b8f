//! Keys of values, and rows of a value and an entity.
ghost use Rattle.std.specs.Prelude.{◌≡◌, length, IsTrue};
ghost use Rattle.st_keys.specs.Keys.{Fits, IsEntity, has_kind, width};
ghost use Rattle.st_rows.specs.Rows.{pair_width};

use crate::given::{is_filled, kind_of, next_word};
use crate::told::{push_entity, push_plain, push_whether, shown, wrong};
use st_keys::{KeyFault, decode_key, encode_key, key_width};
use st_rows::{RowFault, pair_row, pair_width, read_pair};
use st_text::Letters;
use st_values::{EntityId, Kind, Value};
use std::alloc::{AllocError, Global};

/// The most bytes of a key or of a row with it.
const MOST: usize = 262;

/// The value with a key: the text is a kind of values and bytes, behind which zeros stand up to the key's width.
pub fn key_answer(alloc: Global, text: &str) -> Result<String, AllocError> {
    let mut words = text.split_whitespace();
    let Some(kind) = kind_of(next_word(&mut words)) else {
        return String::from_str(alloc, " no kind");
    };
    let mut bytes = [0; MOST];
    let size = key_width(kind);
    if !is_filled(&mut bytes[..size], words) {
        return String::from_str(alloc, " no key");
    }
    of_key(alloc, kind, &bytes[..size])
}

fn of_key(alloc: Global, kind: Kind, bytes: &[u8]) -> Result<String, AllocError>
    requires { length bytes.now ≡ width kind }
{
    match decode_key(alloc, bytes, kind) {
        Ok(value) => key_told(alloc, kind, &value, bytes),
        Err(KeyFault::BadKey { place }) => wrong(alloc, place),
        Err(KeyFault::Memory) => Err(AllocError),
    }
}

fn key_told(alloc: Global, kind: Kind, value: &Value, bytes: &[u8]) -> Result<String, AllocError>
    requires kind { IsTrue (has_kind kind value.now) }
    requires width { length bytes.now ≡ width kind }
{
    let mut out = Letters::new(alloc);
    out.push_str(" ")?;
    push_plain(&mut out, value)?;
    push_whether(&mut out, is_key_again(kind, value, bytes))?;
    shown(alloc, out.as_str())
}

fn is_key_again(kind: Kind, value: &Value, bytes: &[u8]) -> bool
    requires kind { IsTrue (has_kind kind value.now) }
    requires width { length bytes.now ≡ width kind }
{
    let mut again = [255; MOST];
    let size = bytes.len();
    encode_key(value, kind, &mut again[..size]).is_ok() && &again[..size] == bytes
}

/// The value and the entity of a row: the text is a kind of values, `set` or `turned`, and bytes, behind which zeros stand
/// up to the row's width.
pub fn pair_answer(alloc: Global, text: &str) -> Result<String, AllocError> {
    let mut words = text.split_whitespace();
    let Some(kind) = kind_of(next_word(&mut words)) else {
        return String::from_str(alloc, " no kind");
    };
    let turned = next_word(&mut words) == "turned";
    let mut bytes = [0; MOST];
    let size = pair_width(kind);
    if !is_filled(&mut bytes[..size], words) {
        return String::from_str(alloc, " no row");
    }
    of_pair(alloc, kind, turned, &bytes[..size])
}

fn of_pair(alloc: Global, kind: Kind, turned: bool, bytes: &[u8]) -> Result<String, AllocError>
    requires { length bytes.now ≡ pair_width kind }
{
    match read_pair(alloc, bytes, kind, turned) {
        Ok((value, entity)) => pair_told(alloc, kind, turned, &value, entity, bytes),
        Err(RowFault::BadRow { place }) => wrong(alloc, place),
        Err(RowFault::Memory) => Err(AllocError),
    }
}

fn pair_told(
    alloc: Global,
    kind: Kind,
    turned: bool,
    value: &Value,
    entity: EntityId,
    bytes: &[u8],
) -> Result<String, AllocError>
    requires value { Fits kind value.now }
    requires entity { IsEntity entity }
    requires width { length bytes.now ≡ pair_width kind }
{
    let mut out = Letters::new(alloc);
    out.push_str(" ")?;
    push_plain(&mut out, value)?;
    out.push_str(" ")?;
    push_entity(&mut out, entity)?;
    push_whether(&mut out, is_pair_again(kind, turned, value, entity, bytes))?;
    shown(alloc, out.as_str())
}

fn is_pair_again(kind: Kind, turned: bool, value: &Value, entity: EntityId, bytes: &[u8]) -> bool
    requires value { Fits kind value.now }
    requires entity { IsEntity entity }
    requires width { length bytes.now ≡ pair_width kind }
{
    let mut again = [255; MOST];
    let size = bytes.len();
    pair_row(value, kind, entity, turned, &mut again[..size]);
    &again[..size] == bytes
}
