//! Calls on a database in pages, one after another.
ghost use Rattle.std.specs.List.{All};
ghost use Rattle.st_catalog.specs.Stores.{AreOf};
ghost use Rattle.st_store.specs.Stores.{IsPlace};

use crate::given::{entity, number, value};
use crate::schemas::{database, opened};
use crate::told::{push_entities, push_entity, push_fault, push_value, push_values, push_whether};
use st_cases::{Asks, Case};
use st_chain::Chain;
use st_deletes::delete_entity;
use st_edits::{add_member, make_entity, set_value, take_member};
use st_lattice::Schema;
use st_lookups::{cells_at, is_live, list, members, turned, value_of};
use st_memory_pages::MemoryPages;
use st_page::PageFault;
use st_pages::Places;
use st_plain::BaseFault;
use st_values::EntityId;
use std::alloc::{AllocError, Global};
use std::fmt::Write;
use std::str::SplitWhitespace;

/// The front of a case is a schema, and the lines below the first one are calls on a new database of it.
pub struct Calls;

impl Asks for Calls {
    fn answer(&self, alloc: Global, case: &Case) -> Result<String, AllocError> {
        let mut pages = database(alloc, &case.front)?;
        let mut out = String::new(alloc);
        match opened(alloc, &mut pages) {
            Ok((schema, places)) => {
                run(alloc, &schema, &places, &mut pages, case.text(), &mut out)?
            }
            Err(_) => out.push_str(" no database")?,
        }
        Ok(out)
    }
}

/// Makes the calls of the lines below the first one, and adds each with its answer.
fn run(
    alloc: Global,
    schema: &Schema,
    places: &Places,
    pages: &mut MemoryPages,
    text: &str,
    out: &mut String,
) -> Result<(), AllocError>
    requires of { AreOf schema.now places.now }
    requires fair { All IsPlace places.now }
{
    let (_, lines) = text.split_once('\n').unwrap_or((text, ""));
    for line in lines.lines() {
        write!(out, "\n  {line} =>")?;
        let mut words = line.split_whitespace();
        let word = words.next().unwrap_or("");
        match call(alloc, schema, places, pages, word, &mut words, out) {
            Ok(()) => {}
            Err(fault) => push_fault(out, &fault)?,
        }
    }
    Ok(())
}

/// One call that changes the database, or looks something up.
fn call(
    alloc: Global,
    schema: &Schema,
    places: &Places,
    pages: &mut MemoryPages,
    word: &str,
    words: &mut SplitWhitespace<'_>,
    out: &mut String,
) -> Result<(), BaseFault>
    requires of { AreOf schema.now places.now }
    requires fair { All IsPlace places.now }
{
    match word {
        "make" => make(alloc, schema, places, pages, number(words), out),
        "set" => set(alloc, schema, places, pages, words, out),
        "add" => add(alloc, schema, places, pages, words, out),
        "take" => take(alloc, schema, places, pages, words, out),
        "delete" => delete(alloc, schema, places, pages, entity(words), out),
        _ => match look(alloc, schema, places, pages, word, words, out) {
            Ok(told) => Ok(told?),
            Err(fault) => Err(BaseFault::Page(fault)),
        },
    }
}

/// Makes an entity of a type, if that is there.
fn make(
    alloc: Global,
    schema: &Schema,
    places: &Places,
    pages: &mut MemoryPages,
    ty: u16,
    out: &mut String,
) -> Result<(), BaseFault>
    requires of { AreOf schema.now places.now }
    requires fair { All IsPlace places.now }
{
    if ty >= schema.type_count() {
        return Ok(out.push_str(" no type")?);
    }
    let made = make_entity::<Chain, MemoryPages>(alloc, schema, places, pages, ty)?;
    Ok(push_entity(out, made)?)
}

/// Sets a value.
fn set(
    alloc: Global,
    schema: &Schema,
    places: &Places,
    pages: &mut MemoryPages,
    words: &mut SplitWhitespace<'_>,
    out: &mut String,
) -> Result<(), BaseFault>
    requires of { AreOf schema.now places.now }
    requires fair { All IsPlace places.now }
{
    let entity = entity(words);
    let attribute = number(words);
    let new = value(alloc, words)?;
    set_value::<Chain, MemoryPages>(alloc, schema, places, pages, entity, attribute, &new)?;
    Ok(out.push_str(" ok")?)
}

/// Puts a value into a set.
fn add(
    alloc: Global,
    schema: &Schema,
    places: &Places,
    pages: &mut MemoryPages,
    words: &mut SplitWhitespace<'_>,
    out: &mut String,
) -> Result<(), BaseFault>
    requires of { AreOf schema.now places.now }
    requires fair { All IsPlace places.now }
{
    let entity = entity(words);
    let attribute = number(words);
    let new = value(alloc, words)?;
    let changed = add_member::<Chain, MemoryPages>(
        alloc, schema, places, pages, entity, attribute, &new,
    )?;
    Ok(push_whether(out, changed)?)
}

/// Takes a value out of a set.
fn take(
    alloc: Global,
    schema: &Schema,
    places: &Places,
    pages: &mut MemoryPages,
    words: &mut SplitWhitespace<'_>,
    out: &mut String,
) -> Result<(), BaseFault>
    requires of { AreOf schema.now places.now }
    requires fair { All IsPlace places.now }
{
    let entity = entity(words);
    let attribute = number(words);
    let old = value(alloc, words)?;
    let changed = take_member::<Chain, MemoryPages>(
        alloc, schema, places, pages, entity, attribute, &old,
    )?;
    Ok(push_whether(out, changed)?)
}

/// Deletes an entity, if it is live.
fn delete(
    alloc: Global,
    schema: &Schema,
    places: &Places,
    pages: &mut MemoryPages,
    entity: EntityId,
    out: &mut String,
) -> Result<(), BaseFault>
    requires of { AreOf schema.now places.now }
    requires fair { All IsPlace places.now }
{
    match is_live::<Chain, MemoryPages>(alloc, schema, places, pages, entity) {
        Ok(true) => {
            delete_entity::<Chain, MemoryPages>(alloc, schema, places, pages, entity)?;
            Ok(out.push_str(" ok")?)
        }
        Ok(false) => Ok(out.push_str(" not live")?),
        Err(fault) => Err(BaseFault::Page(fault)),
    }
}

/// Looks something up; whether there was memory for what is told.
fn look(
    alloc: Global,
    schema: &Schema,
    places: &Places,
    pages: &mut MemoryPages,
    word: &str,
    words: &mut SplitWhitespace<'_>,
    out: &mut String,
) -> Result<Result<(), AllocError>, PageFault>
    requires of { AreOf schema.now places.now }
    requires fair { All IsPlace places.now }
{
    match word {
        "list" => {
            let found = list::<Chain, MemoryPages>(alloc, schema, places, pages, number(words))?;
            Ok(push_entities(out, found.as_slice()))
        }
        "holders" => {
            let attribute = number(words);
            let Ok(asked) = value(alloc, words) else {
                return Err(PageFault::Memory);
            };
            let found = turned::<Chain, MemoryPages>(
                alloc, schema, places, pages, attribute, &asked,
            )?;
            Ok(push_entities(out, found.as_slice()))
        }
        _ => look_at(alloc, schema, places, pages, word, words, out),
    }
}

/// Looks up what belongs to an entity.
fn look_at(
    alloc: Global,
    schema: &Schema,
    places: &Places,
    pages: &mut MemoryPages,
    word: &str,
    words: &mut SplitWhitespace<'_>,
    out: &mut String,
) -> Result<Result<(), AllocError>, PageFault>
    requires of { AreOf schema.now places.now }
    requires fair { All IsPlace places.now }
{
    let entity = entity(words);
    match word {
        "live" => {
            let live = is_live::<Chain, MemoryPages>(alloc, schema, places, pages, entity)?;
            Ok(push_whether(out, live))
        }
        "cells" => {
            let cells = cells_at::<Chain, MemoryPages>(alloc, schema, places, pages, entity)?;
            Ok(match cells {
                Some(cells) => write!(out, " {}", cells.as_slice().len()),
                None => out.push_str(" none"),
            })
        }
        "value" => {
            let had = value_of::<Chain, MemoryPages>(
                alloc,
                schema,
                places,
                pages,
                entity,
                number(words),
            )?;
            Ok(push_value(out, &had))
        }
        "members" => {
            let values = members::<Chain, MemoryPages>(
                alloc,
                schema,
                places,
                pages,
                entity,
                number(words),
            )?;
            Ok(push_values(out, values.as_slice()))
        }
        _ => Ok(out.push_str(" no call")),
    }
}
