//! What literals and variables stand for.
ghost use Rattle.std.specs.Prelude.{◌≡◌, ◌≤◌, ◌+◌, ◌∷◌, ◌++◌, length, take, drop, find, IfOk, OnOk, OnErr};
ghost use Rattle.std.specs.List.{position_or_len};
ghost use Rattle.std.specs.Option.{option_copied};
ghost use Rattle.std.specs.Str.{bytes_eq};
ghost use Rattle.std.specs.Vec.{vec_len};
ghost use Rattle.st_query.specs.Terms.{entity_value, literal_value, variable_value, bind};

use crate::{Literal, Variable};
use st_lattice::Schema;
use st_text::Duplicate;
use st_values::{EntityId, Letters, Value};
use std::alloc::{AllocError, Global};

fn entity_value(ty: Option<u16>, serial: u32) -> Value
    ensures { result ≡ entity_value ty serial }
{
    match ty {
        Some(ty) => Value::Entity(EntityId { ty, serial }),
        None => Value::Null,
    }
}

/// The value of a literal: an entity where its type is one of the schema, else null. `AllocError` where there is no
/// memory.
pub fn literal_value(alloc: Global, schema: &Schema, literal: &Literal) -> Result<Value, AllocError>
    ensures { IfOk result (λ value. value ≡ literal_value schema.now literal.now) }
{
    match literal {
        Literal::Null => Ok(Value::Null),
        Literal::Int(number) => Ok(Value::Int(*number)),
        Literal::Bool(truth) => Ok(Value::Bool(*truth)),
        Literal::Text(text) => Ok(Value::Text(text.copy(alloc)?)),
        Literal::Entity(ty, serial) => {
            Ok(entity_value(schema.type_named(ty.as_slice()), *serial))
        }
    }
}

fn variable_named<'a>(variables: &'a [Variable], name: &[u8]) -> Option<&'a Variable>
    ensures { option_copied result ≡ find (λ variable. bytes_eq variable.name name.now) variables.now }
{
    variables
        .iter()
        .find(|variable| variable.name.as_slice() == name)
}

/// A copy of what the variable with a name is bound to; null where there is none. `AllocError` where there is no memory.
pub fn variable_value(
    alloc: Global,
    variables: &[Variable],
    name: &[u8],
) -> Result<Value, AllocError>
    ensures { IfOk result (λ value. value ≡ variable_value variables.now name.now) }
{
    match variable_named(variables, name) {
        Some(variable) => variable.value.copy(alloc),
        None => Ok(Value::Null),
    }
}

fn place_of(variables: &[Variable], name: &[u8]) -> usize
    ensures value { result ≡ position_or_len (λ variable. bytes_eq variable.name name.now) variables.now }
    ensures within { result ≤ length variables.now }
{
    let mut place = 0;
    for variable in variables {
        if variable.name.as_slice() == name {
            return place;
        }
        place += 1;
    }
    place
}

/// Writes over the variable at a place, or adds one at the end.
fn put(variables: &mut Vec<Variable>, place: usize, variable: Variable) -> Result<(), AllocError>
    requires { place ≤ vec_len variables.old }
    ensures ok { OnOk result (variables.new.items ≡ take place variables.old.items ++ variable ∷ drop (place + 1) variables.old.items) }
    ensures err { OnErr result (variables.new.items ≡ variables.old.items) }
{
    if place < variables.len() {
        variables[place] = variable;
    } else {
        variables.push(variable)?;
    }
    Ok(())
}

/// Binds a name to a value, anew where it was bound. `AllocError` where there is no memory; the variables are then as
/// they were.
pub fn bind(
    alloc: Global,
    variables: &mut Vec<Variable>,
    name: &Letters,
    value: Value,
) -> Result<(), AllocError>
    ensures ok { OnOk result (variables.new.items ≡ bind name.now value variables.old.items) }
    ensures err { OnErr result (variables.new.items ≡ variables.old.items) }
{
    let place = place_of(variables, name.as_slice());
    let variable = Variable {
        name: name.copy(alloc)?,
        value,
    };
    put(variables, place, variable)
}
