//! Calls on the indexes and inverses of a new database.
ghost use Rattle.std.specs.Prelude.{◌≡◌, IfOk, IfSome, IsTrue};
ghost use Rattle.std.specs.List.{All};
ghost use Rattle.st_keys.specs.Keys.{IsEntity};
ghost use Rattle.st_lattice.specs.Outline.{attribute as numbered};
ghost use Rattle.st_catalog.specs.Stores.{AreOf};
ghost use Rattle.st_store.specs.Stores.{IsPlace};
ghost use Rattle.st_index.specs.Turned.{IsOrNull};

use crate::calls::said;
use crate::given::number;
use crate::pages::{tell_pages, write_bytes};
use st_chain::Chain;
use st_index::{fits, lookup, note};
use st_lattice::Schema;
use st_memory_pages::MemoryPages;
use st_page::PageFault;
use st_pages::Places;
use st_values::{Entities, EntityId, Kind, Letters, Value};
use std::alloc::{AllocError, Global};
use std::fmt::Write;
use std::str::SplitWhitespace;

/// Makes calls, parted by commas, up to the first one that is answered a fault, and adds the answers.
pub fn run_indexed(
    alloc: Global,
    schema: &Schema,
    places: &Places,
    pages: &mut MemoryPages,
    text: &str,
    out: &mut String,
) -> Result<(), PageFault>
    requires of { AreOf schema.now places.now }
    requires fair { All IsPlace places.now }
{
    for part in text.split(',') {
        let mut words = part.split_whitespace();
        let word = words.next().unwrap_or("");
        call(alloc, schema, places, pages, word, &mut words, out)?;
    }
    Ok(())
}

/// One call: `note` with an attribute's number, an entity, its old value and its new one; `lookup` with an attribute's number and a
/// value; `write` or `pages`.
fn call(
    alloc: Global,
    schema: &Schema,
    places: &Places,
    pages: &mut MemoryPages,
    word: &str,
    words: &mut SplitWhitespace<'_>,
    out: &mut String,
) -> Result<(), PageFault>
    requires of { AreOf schema.now places.now }
    requires fair { All IsPlace places.now }
{
    match word {
        "write" => write_bytes(alloc, pages, words),
        "pages" => tell_pages(alloc, pages, out),
        "note" => {
            let attribute = small(words);
            let entity = entity_of(words.next().unwrap_or(""));
            let old = value_of(alloc, words.next().unwrap_or(""))?;
            let new = value_of(alloc, words.next().unwrap_or(""))?;
            let noted = note_values(alloc, schema, places, pages, attribute, entity, &old, &new)?;
            said(out.push_str(if noted { " ok" } else { " no values" }))
        }
        "lookup" => {
            let attribute = small(words);
            let value = value_of(alloc, words.next().unwrap_or(""))?;
            let found = lookup::<Chain, MemoryPages>(
                alloc, schema, places, pages, attribute, &value,
            )?;
            said(tell_entities(&found, out))
        }
        _ => said(out.push_str(" no call")),
    }
}

/// Whether a value is null or fits a kind.
fn is_or_null(kind: Kind, value: &Value) -> bool
    ensures { IsTrue result → IsOrNull kind value.now }
{
    match value {
        Value::Null => true,
        _ => fits(value, kind),
    }
}

/// Notes a change of a value, if the values are of the attribute's kind; whether they are.
fn note_values(
    alloc: Global,
    schema: &Schema,
    places: &Places,
    pages: &mut MemoryPages,
    attribute: u16,
    entity: EntityId,
    old: &Value,
    new: &Value,
) -> Result<bool, PageFault>
    requires of { AreOf schema.now places.now }
    requires fair { All IsPlace places.now }
{
    let Some(found) = schema.attribute(attribute) else {
        return Ok(false);
    };
    if entity.serial == 0 || !is_or_null(found.kind, old) || !is_or_null(found.kind, new) {
        return Ok(false);
    }
    note::<Chain, MemoryPages>(alloc, schema, places, pages, attribute, entity, old, new)?;
    Ok(true)
}

/// Tells entities by the numbers of their types, and their serials.
fn tell_entities(entities: &Entities, out: &mut String) -> Result<(), AllocError> {
    out.push_str(" [")?;
    for entity in entities.as_slice() {
        let ty = entity.ty;
        let serial = entity.serial;
        write!(out, " {ty}:{serial}")?;
    }
    out.push_str(" ]")
}

/// The number of an attribute.
fn small(words: &mut SplitWhitespace<'_>) -> u16 {
    number(words).min(65535) as u16
}

/// The entity of a word, by the number of its type and its serial, with `:` between.
fn entity_of(word: &str) -> EntityId {
    let (ty, serial) = word.split_once(':').unwrap_or((word, ""));
    EntityId {
        ty: ty.parse::<u16>().unwrap_or(0),
        serial: serial.parse::<u32>().unwrap_or(0),
    }
}

/// The value of a word: `null`, `true`, `false`, a text behind `'`, an entity, or an integer.
fn value_of(alloc: Global, word: &str) -> Result<Value, PageFault> {
    match word {
        "null" => Ok(Value::Null),
        "true" => Ok(Value::Bool(true)),
        "false" => Ok(Value::Bool(false)),
        _ => other_value(alloc, word),
    }
}

fn other_value(alloc: Global, word: &str) -> Result<Value, PageFault> {
    if let Some(text) = word.strip_prefix('\'') {
        return match Letters::from_text(alloc, text) {
            Ok(letters) => Ok(Value::Text(letters)),
            Err(_) => Err(PageFault::Memory),
        };
    }
    if word.contains(':') {
        return Ok(Value::Entity(entity_of(word)));
    }
    Ok(Value::Int(word.parse::<i64>().unwrap_or(0)))
}
