//! The types of attributes' values.
ghost use Rattle.std.specs.Prelude.{◌≡◌, IfOk, None};
ghost use Rattle.st_text.specs.Answer.{Answers};
ghost use Rattle.st_schema.specs.Written.{told, size_of, size_at, sized_string, type_word, worded_at, single_type, set_type, type_at, value_type};

use crate::SchemaFault;
use crate::written::Worded;
use st_sexp::{Form, as_name, as_number, behind, end_of, is_name, next_at};
use st_text::{Duplicate, Letters};
use std::alloc::{AllocError, Global};

/// A size of texts, where the number is from 1 to 200.
fn size_of(number: i64) -> Option<u8>
    ensures { result ≡ size_of (Some number) }
{
    if number < 1 || 200 < number {
        return None;
    }
    Some(number as u8)
}

/// The `N` of `(string N)`, from 1 to 200.
fn size_at(form: &Form) -> Result<u8, SchemaFault>
    ensures { result ≡ size_at form.now }
{
    let Some(number) = as_number(form) else {
        return Err(SchemaFault::Form { place: form.from });
    };
    match size_of(number) {
        Some(size) => Ok(size),
        None => Err(SchemaFault::Form { place: form.from }),
    }
}

/// `(string N)`.
fn sized_string(place: u32, parts: &[Form]) -> Result<Worded, SchemaFault>
    ensures { Answers told result (sized_string place parts.now) }
{
    let (size, rest) = next_at::<SchemaFault>(place, parts)?;
    let size = size_at(size)?;
    end_of(rest, Worded::Text(size))
}

/// The type that a word is: one of its own, or that of a type's name. `string` has at most 80 bytes.
fn type_word(alloc: Global, word: &Letters) -> Result<Option<Worded>, AllocError>
    ensures { IfOk result (λ found. found ≡ type_word word.now) }
{
    if word.as_slice() == b"integer".as_slice() {
        Ok(Some(Worded::Int))
    } else if word.as_slice() == b"boolean".as_slice() {
        Ok(Some(Worded::Bool))
    } else if word.as_slice() == b"string".as_slice() {
        Ok(Some(Worded::Text(80)))
    } else if is_name(word.as_slice()) {
        Ok(Some(Worded::Entity(word.copy(alloc)?)))
    } else {
        Ok(None)
    }
}

/// The type of single values that is one word.
fn named_type(alloc: Global, form: &Form) -> Result<Worded, SchemaFault>
    ensures { Answers told result (worded_at form.now None) }
{
    let Some(word) = as_name(form) else {
        return Err(SchemaFault::Form { place: form.from });
    };
    match type_word(alloc, word)? {
        Some(worded) => Ok(worded),
        None => Err(SchemaFault::Form { place: form.from }),
    }
}

/// The type of single values.
fn single_type(alloc: Global, form: &Form) -> Result<Worded, SchemaFault>
    ensures { Answers told result (single_type form.now) }
{
    match behind(b"string", form) {
        Some(parts) => sized_string(form.from, parts),
        None => named_type(alloc, form),
    }
}

/// `(set-of TYPE)`.
fn set_type(alloc: Global, place: u32, parts: &[Form]) -> Result<(Worded, bool), SchemaFault>
    ensures { Answers told result (set_type place parts.now) }
{
    let (single, rest) = next_at::<SchemaFault>(place, parts)?;
    let worded = single_type(alloc, single)?;
    end_of(rest, (worded, true))
}

/// The type of an attribute that has no sets.
fn plain_type(alloc: Global, form: &Form) -> Result<(Worded, bool), SchemaFault>
    ensures { Answers told result (type_at form.now None) }
{
    let worded = single_type(alloc, form)?;
    Ok((worded, false))
}

/// The type of an attribute's values, and whether it has sets of them.
pub(crate) fn value_type(alloc: Global, form: &Form) -> Result<(Worded, bool), SchemaFault>
    ensures { Answers told result (value_type form.now) }
{
    match behind(b"set-of", form) {
        Some(parts) => set_type(alloc, form.from, parts),
        None => plain_type(alloc, form),
    }
}
