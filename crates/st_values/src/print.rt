ghost use Rattle.std.specs.Prelude.{◌≡◌, ◌++◌, [], encode_utf8, flat_map, length, slice_index_or, take, IfOk, OnOk};
ghost use Rattle.std.specs.Fmt.{signed_decimal};
ghost use Rattle.st_values.specs.Print.{escaped, printed, printed_entity, quoted};

use crate::value::{EntityId, Value};
use itoa::Buffer;
use st_text::Letters;
use std::alloc::{AllocError, Global};

/// A value as it is printed, `printed`, where `names` has the name of each type, in the order of
/// the schema. An entity of a type past their end has none. `AllocError` where there is no memory.
pub fn print_value(alloc: Global, value: &Value, names: &[Letters]) -> Result<Letters, AllocError>
    ensures { IfOk result (λ text. text ≡ printed names.now value.now) }
{
    let mut text = Letters::new(alloc);
    push_value(&mut text, value, names)?;
    Ok(text)
}

/// Adds a value, as it is printed, to the end of a text. On `AllocError` a part of it may have been
/// added, after all that the text had.
pub fn push_value(into: &mut Letters, value: &Value, names: &[Letters]) -> Result<(), AllocError>
    ensures ok { OnOk result (into.new ≡ into.old ++ printed names.now value.now) }
    ensures kept { take (length into.old) into.new ≡ into.old }
{
    match value {
        Value::Null => into.push_str("null"),
        Value::Int(number) => push_integer(into, *number),
        Value::Bool(true) => into.push_str("true"),
        Value::Bool(false) => into.push_str("false"),
        Value::Text(text) => push_quoted(into, text.as_str()),
        Value::Entity(entity) => push_entity(into, *entity, names),
    }
}

fn push_integer(into: &mut Letters, number: i64) -> Result<(), AllocError>
    ensures ok { OnOk result (into.new ≡ into.old ++ signed_decimal number) }
    ensures kept { take (length into.old) into.new ≡ into.old }
{
    let mut buffer = Buffer::new();
    into.push_str(buffer.format(number))
}

fn push_quoted(into: &mut Letters, text: &str) -> Result<(), AllocError>
    ensures ok { OnOk result (into.new ≡ into.old ++ quoted text.now) }
    ensures kept { take (length into.old) into.new ≡ into.old }
{
    into.push('"')?;
    push_escaped(into, text)?;
    into.push('"')
}

fn push_escaped(into: &mut Letters, text: &str) -> Result<(), AllocError>
    ensures ok { OnOk result (into.new ≡ into.old ++ flat_map escaped text.now) }
    ensures kept { take (length into.old) into.new ≡ into.old }
{
    for letter in text.chars() {
        push_letter(into, letter)?;
    }
    Ok(())
}

fn push_letter(into: &mut Letters, letter: char) -> Result<(), AllocError>
    ensures ok { OnOk result (into.new ≡ into.old ++ flat_map escaped (encode_utf8 letter)) }
    ensures kept { take (length into.old) into.new ≡ into.old }
{
    match letter {
        '"' => into.push_str("\\\""),
        '\\' => into.push_str("\\\\"),
        '\n' => into.push_str("\\n"),
        other => into.push(other),
    }
}

fn type_name(names: &[Letters], ty: u16) -> &str
    ensures { result.now ≡ slice_index_or names.now ty [] }
{
    match names.get(ty as usize) {
        Some(name) => name.as_str(),
        None => "",
    }
}

fn push_entity(into: &mut Letters, entity: EntityId, names: &[Letters]) -> Result<(), AllocError>
    ensures ok { OnOk result (into.new ≡ into.old ++ printed_entity names.now entity) }
    ensures kept { take (length into.old) into.new ≡ into.old }
{
    let mut buffer = Buffer::new();
    into.push_str(type_name(names, entity.ty))?;
    into.push('#')?;
    into.push_str(buffer.format(entity.serial))
}
