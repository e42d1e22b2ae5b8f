//! How queries are written: conditions, order and what is shown.
ghost use Rattle.std.specs.Prelude.{◌≡◌};
ghost use Rattle.std.specs.Option.{ok_or};
ghost use Rattle.st_text.specs.Answer.{Answers};
ghost use Rattle.st_sexp.specs.Items.{behind};
ghost use Rattle.st_statements.specs.declared.fault.Misread.TheVariants as misread;
ghost use Rattle.st_statements.specs.Faults.{misread_of};
ghost use Rattle.st_statements.specs.Queries.{sign_of, comparison, condition_by, condition_at, is_descending, direction_at, key_parts, key_at, query_parts, range_parts, range_at, query, query_at};

use crate::basic::{behind_at, end_of, forms_at, misfit, next_at, two_names};
use crate::fault::Stop;
use crate::part::{conditions_part, keys_part, shown_part};
use crate::term::{one_term, term_at, two_terms};
use st_query::{Condition, Key, Query, Sign};
use st_sexp::{Ahead, Form, is_word};
use st_text::Letters;
use std::alloc::Global;

/// How a condition compares, by its head.
fn sign_of(head: &Form) -> Option<Sign>
    ensures { result ≡ sign_of head.now }
{
    if is_word(head, b"=") {
        Some(Sign::Equal)
    } else if is_word(head, b"/=") {
        Some(Sign::Differs)
    } else if is_word(head, b"<") {
        Some(Sign::Below)
    } else if is_word(head, b"<=") {
        Some(Sign::AtMost)
    } else if is_word(head, b">") {
        Some(Sign::Above)
    } else if is_word(head, b">=") {
        Some(Sign::AtLeast)
    } else {
        None
    }
}

/// `(SIGN TERM TERM)`.
fn comparison(alloc: Global, place: u32, head: &Form, parts: Ahead<Form>) -> Result<Condition, Stop>
    ensures { Answers misread_of result (comparison place head.now parts) }
{
    let Some(sign) = sign_of(head) else {
        return Err(misfit(place));
    };
    let (left, right) = two_terms(alloc, place, parts)?;
    Ok(Condition::Compare { sign, left, right })
}

/// A condition by its head.
fn condition_by(
    alloc: Global,
    place: u32,
    head: &Form,
    parts: Ahead<Form>,
) -> Result<Condition, Stop>
    ensures { Answers misread_of result (condition_by place head.now parts) }
{
    if is_word(head, b"null") {
        Ok(Condition::Null(one_term(alloc, place, parts)?))
    } else if is_word(head, b"not-null") {
        Ok(Condition::NotNull(one_term(alloc, place, parts)?))
    } else if is_word(head, b"member") {
        let (value, set) = two_terms(alloc, place, parts)?;
        Ok(Condition::Member { value, set })
    } else {
        comparison(alloc, place, head, parts)
    }
}

/// A condition.
pub(crate) fn condition_at(alloc: Global, form: Form) -> Result<Condition, Stop>
    ensures { Answers misread_of result (condition_at form) }
{
    let place = form.from;
    let parts = forms_at(alloc, form)?;
    let (head, parts) = next_at(place, parts)?;
    condition_by(alloc, place, &head, parts)
}

/// `asc` or `desc`, whether larger values come first.
fn direction_at(form: &Form) -> Result<bool, Stop>
    ensures { Answers misread_of result (direction_at form.now) }
{
    if is_word(form, b"asc") {
        Ok(false)
    } else if is_word(form, b"desc") {
        Ok(true)
    } else {
        Err(misfit(form.from))
    }
}

/// The term and the direction of a key.
fn key_parts(alloc: Global, place: u32, parts: Ahead<Form>) -> Result<Key, Stop>
    ensures { Answers misread_of result (key_parts place parts) }
{
    let (term, parts) = next_at(place, parts)?;
    let term = term_at(alloc, term)?;
    let (direction, parts) = next_at(place, parts)?;
    let descending = direction_at(&direction)?;
    end_of(parts, Key { term, descending })
}

/// `(TERM DIR)`.
pub(crate) fn key_at(alloc: Global, form: Form) -> Result<Key, Stop>
    ensures { Answers misread_of result (key_at form) }
{
    let place = form.from;
    let parts = forms_at(alloc, form)?;
    key_parts(alloc, place, parts)
}

/// The parts of a query behind its range, in their order.
fn query_parts(alloc: Global, var: Letters, ty: Letters, parts: Ahead<Form>) -> Result<Query, Stop>
    ensures { Answers misread_of result (query_parts var ty parts) }
{
    let (conditions, parts) = conditions_part(alloc, parts)?;
    let (keys, parts) = keys_part(alloc, parts)?;
    let (shown, parts) = shown_part(alloc, parts)?;
    let query = Query {
        var,
        ty,
        conditions,
        keys,
        shown,
    };
    end_of(parts, query)
}

/// The variable and the type of a query's range.
fn range_parts(place: u32, parts: Ahead<Form>) -> Result<(Letters, Letters), Stop>
    ensures { Answers misread_of result (range_parts place parts) }
{
    let (var, ty, parts) = two_names(place, parts)?;
    end_of(parts, (var, ty))
}

/// `(VAR TYPE)`.
fn range_at(alloc: Global, form: Form) -> Result<(Letters, Letters), Stop>
    ensures { Answers misread_of result (range_at form) }
{
    let place = form.from;
    let parts = forms_at(alloc, form)?;
    range_parts(place, parts)
}

/// What stands behind `for-each`.
pub(crate) fn query(alloc: Global, place: u32, parts: Ahead<Form>) -> Result<Query, Stop>
    ensures { Answers misread_of result (query place parts) }
{
    let (range, parts) = next_at(place, parts)?;
    let (var, ty) = range_at(alloc, range)?;
    query_parts(alloc, var, ty, parts)
}

/// `(for-each (VAR TYPE) ..)`.
pub fn query_at(alloc: Global, form: Form) -> Result<Query, Stop>
    ensures { Answers misread_of result (query_at form) }
{
    let place = form.from;
    let parts = behind_at(alloc, b"for-each", form)?;
    query(alloc, place, parts)
}
