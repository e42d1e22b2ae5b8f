//! Calls of what runs over any base.
ghost use Rattle.std.specs.Prelude.{◌<◌, length};

use crate::answers::answer;
use st_late::{made_with, value_if_live};
use st_plain::Base;
use st_values::{EntityId, Value};
use std::alloc::{AllocError, Global};

/// The number of the attribute `person.age`.
const AGE: u16 = 1;

/// What is called.
#[derive(Clone, Copy)]
pub enum Call {
    /// Makes a person of this age, and asks for the age.
    Make(i64),
    /// Asks for the age of an entity, if it is live.
    Ask(EntityId),
}

/// What a call answers over a base, as it is printed. The number is that of the type `person`.
pub fn called<B: Base>(
    base: &mut B,
    alloc: Global,
    person: u16,
    call: Call,
) -> Result<String, AllocError>
    requires { person < length (B.schema base.old).names }
{
    let found = match call {
        Call::Make(age) => made_with(base, alloc, person, AGE, &Value::Int(age)).map(Some),
        Call::Ask(entity) => value_if_live(base, alloc, entity, AGE),
    };
    answer(alloc, &found)
}
