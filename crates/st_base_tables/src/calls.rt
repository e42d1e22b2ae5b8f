//! Calls on a database held as lists, one after another.

use crate::answers::{push_entities, push_entity, push_fault, push_values, push_whether};
use crate::given::{entity_of, forms_of, name_of, number_of, serial_of, value_of};
use st_cases::{Asks, Case};
use st_plain::{Base, BaseFault, Plain};
use st_schema::{Schema, SchemaFault, read_schema};
use st_sexp::{Form, as_list};
use st_text::{Duplicate, Letters};
use st_values::{EntityId, Value, push_value};
use std::alloc::{AllocError, Global};

/// The front of a case is a schema, and the case is calls on a database of it.
pub struct Calls;

impl Asks for Calls {
    fn answer(&self, alloc: Global, case: &Case) -> Result<String, AllocError> {
        match schema_of(alloc, &case.front) {
            Ok(schema) => answered(alloc, schema, &case.text),
            Err(_) => String::from_str(alloc, " no schema"),
        }
    }
}

fn schema_of(alloc: Global, text: &[u8]) -> Result<Schema, SchemaFault> {
    match forms_of(alloc, text) {
        Ok(forms) => read_schema(alloc, forms.as_slice()),
        Err(_) => Err(SchemaFault::Memory),
    }
}

/// The answers of all calls on an empty database of the schema.
fn answered(alloc: Global, schema: Schema, text: &[u8]) -> Result<String, AllocError> {
    let mut plain = Plain::new(alloc, schema)?;
    answers(alloc, &mut plain, text)
}

fn answers(alloc: Global, plain: &mut Plain, text: &[u8]) -> Result<String, AllocError> {
    let mut out = Letters::new(alloc);
    push_answers(alloc, plain, text, &mut out)?;
    Ok(out.into_string())
}

/// Adds the answers of all calls, each behind a blank.
fn push_answers(
    alloc: Global,
    plain: &mut Plain,
    text: &[u8],
    out: &mut Letters,
) -> Result<(), AllocError> {
    if let Ok(forms) = forms_of(alloc, text) {
        for form in forms.as_slice() {
            out.push_str(" ")?;
            push_answer(alloc, plain, form, out)?;
        }
    }
    Ok(())
}

fn push_answer(
    alloc: Global,
    plain: &mut Plain,
    form: &Form,
    out: &mut Letters,
) -> Result<(), AllocError> {
    match called(alloc, plain, form, out) {
        Ok(()) => Ok(()),
        Err(fault) => push_fault(out, plain.schema(), &fault),
    }
}

fn called(
    alloc: Global,
    plain: &mut Plain,
    form: &Form,
    out: &mut Letters,
) -> Result<(), BaseFault> {
    match as_list(form) {
        Some([word, given @ ..]) => call(alloc, plain, name_of(Some(word)), given, out),
        _ => Ok(out.push_str("?")?),
    }
}

/// Adds what a call answers: a change `-`, where it answers nothing else.
fn call(
    alloc: Global,
    plain: &mut Plain,
    word: &str,
    given: &[Form],
    out: &mut Letters,
) -> Result<(), BaseFault> {
    match word {
        "starting" => starting(alloc, plain, given, out),
        "mark" => {
            plain.set_mark();
            Ok(out.push_str("-")?)
        }
        "back" => {
            plain.roll_back();
            Ok(out.push_str("-")?)
        }
        "copy" => {
            let copy = plain.copy(alloc)?;
            replace(plain, copy);
            Ok(out.push_str("-")?)
        }
        "make" | "list" => of_type(alloc, plain, word, given, out),
        "live" | "delete" => of_entity(alloc, plain, word, given, out),
        "get" | "members" => read(alloc, plain, word, given, out),
        "turned" => turned(alloc, plain, given, out),
        _ => changed(alloc, plain, word, given, out),
    }
}

/// Goes on with another database.
fn replace(plain: &mut Plain, other: Plain) {
    *plain = other;
}

/// Begins anew, with the last serials of the types.
fn starting(
    alloc: Global,
    plain: &mut Plain,
    given: &[Form],
    out: &mut Letters,
) -> Result<(), BaseFault> {
    let mut last = Vec::new(alloc);
    for form in given {
        last.push(serial_of(form))?;
    }
    if last.len() != plain.schema().type_names().len() {
        return Ok(out.push_str("?")?);
    }
    let schema = plain.schema().copy(alloc)?;
    let new = Plain::starting(alloc, schema, &last)?;
    replace(plain, new);
    Ok(out.push_str("-")?)
}

fn of_type(
    alloc: Global,
    plain: &mut Plain,
    word: &str,
    given: &[Form],
    out: &mut Letters,
) -> Result<(), BaseFault> {
    let Some(ty) = plain.schema().type_named(name_of(given.first()).as_bytes()) else {
        return Ok(out.push_str("?")?);
    };
    if word == "make" {
        let entity = plain.make_or_refuse(alloc, ty)?;
        return Ok(push_entity(out, plain.schema(), entity)?);
    }
    let entities = Base::list(plain, alloc, ty)?;
    Ok(push_entities(out, plain.schema(), entities.as_slice())?)
}

fn of_entity(
    alloc: Global,
    plain: &mut Plain,
    word: &str,
    given: &[Form],
    out: &mut Letters,
) -> Result<(), BaseFault> {
    let entity = entity_of(plain.schema(), given.first());
    if word == "live" {
        let is_live = Base::live(plain, alloc, entity)?;
        return Ok(push_whether(out, is_live)?);
    }
    plain.delete_or_refuse(alloc, entity)?;
    Ok(out.push_str("-")?)
}

fn read(
    alloc: Global,
    plain: &mut Plain,
    word: &str,
    given: &[Form],
    out: &mut Letters,
) -> Result<(), BaseFault> {
    let entity = entity_of(plain.schema(), given.first());
    let attribute = number_of(plain.schema(), given.get(1));
    if word == "get" {
        let value = Plain::get(plain, alloc, entity, attribute)?;
        return Ok(push_value(out, &value, plain.schema().type_names())?);
    }
    let values = Plain::members(plain, alloc, entity, attribute)?;
    Ok(push_values(out, plain.schema(), values.as_slice())?)
}

fn turned(
    alloc: Global,
    plain: &mut Plain,
    given: &[Form],
    out: &mut Letters,
) -> Result<(), BaseFault> {
    let attribute = number_of(plain.schema(), given.first());
    let value = value_of(alloc, plain.schema(), given.get(1))?;
    let entities = Plain::turned(plain, alloc, attribute, &value)?;
    Ok(push_entities(out, plain.schema(), entities.as_slice())?)
}

fn changed(
    alloc: Global,
    plain: &mut Plain,
    word: &str,
    given: &[Form],
    out: &mut Letters,
) -> Result<(), BaseFault> {
    let entity = entity_of(plain.schema(), given.first());
    let attribute = number_of(plain.schema(), given.get(1));
    let value = value_of(alloc, plain.schema(), given.get(2))?;
    change(alloc, plain, word, entity, attribute, &value, out)
}

fn change(
    alloc: Global,
    plain: &mut Plain,
    word: &str,
    entity: EntityId,
    attribute: u16,
    value: &Value,
    out: &mut Letters,
) -> Result<(), BaseFault> {
    match word {
        "set" => {
            plain.set_or_refuse(alloc, entity, attribute, value)?;
            Ok(out.push_str("-")?)
        }
        "add" => {
            let has_changed = plain.add_member(alloc, entity, attribute, value)?;
            Ok(push_whether(out, has_changed)?)
        }
        "take" => {
            let has_changed = plain.take_member(alloc, entity, attribute, value)?;
            Ok(push_whether(out, has_changed)?)
        }
        _ => Ok(out.push_str("?")?),
    }
}
