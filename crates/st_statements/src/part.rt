//! The parts of a query that may stand behind its range.
ghost use Rattle.std.specs.Prelude.{◌≡◌, IfOk, codes};
ghost use Rattle.st_text.specs.Answer.{Answers};
ghost use Rattle.st_statements.specs.Faults.{misread_of};
ghost use Rattle.st_statements.specs.Terms.{term_at};
ghost use Rattle.st_statements.specs.Queries.{max_conditions, max_keys, max_shown, condition_at, key_at, next_part, limited, part_of, part};

use crate::basic::{misfit, some_at};
use crate::fault::Stop;
use crate::query::{condition_at, key_at};
use crate::term::term_at;
use sqlite_items::Items;
use st_query::{Conditions, Keys, Terms};
use st_sexp::{Ahead, Form, Forms, into_behind};
use std::alloc::{AllocError, Global};

/// How many conditions a query may have.
const MAX_CONDITIONS: usize = 8;

/// How many keys it may have.
const MAX_KEYS: usize = 4;

/// How many terms it may show.
const MAX_SHOWN: usize = 16;

/// The place of the part that stands next, where it is a list with this word for its head, and its forms behind that; and
/// the forms that are left.
fn next_part(
    word: &[u8],
    parts: Ahead<Form>,
) -> Result<(Option<(u32, Forms)>, Ahead<Form>), AllocError>
    ensures { IfOk result (λ found. found ≡ next_part word.now parts) }
{
    let mut parts = parts;
    let Some(form) = parts.next() else {
        return Ok((None, parts));
    };
    let place = form.from;
    match into_behind(word, form) {
        Ok(items) => Ok((Some((place, items)), parts)),
        Err(form) => {
            parts.put_back(form)?;
            Ok((None, parts))
        }
    }
}

fn conditions_in(alloc: Global, forms: Ahead<Form>) -> Result<Conditions, Stop>
    ensures { Answers misread_of result (limited max_conditions condition_at forms) }
{
    let mut forms = forms;
    let mut conditions = Items::new(alloc);
    while let Some(form) = forms.next() {
        if conditions.len() >= MAX_CONDITIONS {
            return Err(misfit(form.from));
        }
        conditions.push(condition_at(alloc, form)?)?;
    }
    Ok(conditions)
}

fn conditions_of(alloc: Global, place: u32, items: Forms) -> Result<Conditions, Stop>
    ensures { Answers misread_of result (part_of max_conditions condition_at place items) }
{
    let items = some_at(place, Ahead::new(alloc, items)?)?;
    conditions_in(alloc, items)
}

/// The conditions, where such a part stands next, and the forms that are left.
pub(crate) fn conditions_part(
    alloc: Global,
    parts: Ahead<Form>,
) -> Result<(Conditions, Ahead<Form>), Stop>
    ensures { Answers misread_of result (part max_conditions condition_at (codes "where") parts) }
{
    let (part, rest) = next_part(b"where", parts)?;
    match part {
        Some((place, items)) => Ok((conditions_of(alloc, place, items)?, rest)),
        None => Ok((Items::new(alloc), rest)),
    }
}

fn keys_in(alloc: Global, forms: Ahead<Form>) -> Result<Keys, Stop>
    ensures { Answers misread_of result (limited max_keys key_at forms) }
{
    let mut forms = forms;
    let mut keys = Items::new(alloc);
    while let Some(form) = forms.next() {
        if keys.len() >= MAX_KEYS {
            return Err(misfit(form.from));
        }
        keys.push(key_at(alloc, form)?)?;
    }
    Ok(keys)
}

fn keys_of(alloc: Global, place: u32, items: Forms) -> Result<Keys, Stop>
    ensures { Answers misread_of result (part_of max_keys key_at place items) }
{
    let items = some_at(place, Ahead::new(alloc, items)?)?;
    keys_in(alloc, items)
}

/// The keys, where such a part stands next, and the forms that are left.
pub(crate) fn keys_part(alloc: Global, parts: Ahead<Form>) -> Result<(Keys, Ahead<Form>), Stop>
    ensures { Answers misread_of result (part max_keys key_at (codes "order-by") parts) }
{
    let (part, rest) = next_part(b"order-by", parts)?;
    match part {
        Some((place, items)) => Ok((keys_of(alloc, place, items)?, rest)),
        None => Ok((Items::new(alloc), rest)),
    }
}

fn shown_in(alloc: Global, forms: Ahead<Form>) -> Result<Terms, Stop>
    ensures { Answers misread_of result (limited max_shown term_at forms) }
{
    let mut forms = forms;
    let mut terms = Items::new(alloc);
    while let Some(form) = forms.next() {
        if terms.len() >= MAX_SHOWN {
            return Err(misfit(form.from));
        }
        terms.push(term_at(alloc, form)?)?;
    }
    Ok(terms)
}

fn shown_of(alloc: Global, place: u32, items: Forms) -> Result<Terms, Stop>
    ensures { Answers misread_of result (part_of max_shown term_at place items) }
{
    let items = some_at(place, Ahead::new(alloc, items)?)?;
    shown_in(alloc, items)
}

/// The terms that are shown, where such a part stands next, and the forms that are left.
pub(crate) fn shown_part(alloc: Global, parts: Ahead<Form>) -> Result<(Terms, Ahead<Form>), Stop>
    ensures { Answers misread_of result (part max_shown term_at (codes "show") parts) }
{
    let (part, rest) = next_part(b"show", parts)?;
    match part {
        Some((place, items)) => Ok((shown_of(alloc, place, items)?, rest)),
        None => Ok((Items::new(alloc), rest)),
    }
}
