//! How statements are written.
ghost use Rattle.std.specs.Prelude.{◌≡◌};
ghost use Rattle.st_text.specs.Answer.{Answers};
ghost use Rattle.st_statements.specs.Faults.{misread_of};
ghost use Rattle.st_statements.specs.Statements.{target_parts, target_at, change, make, ensure, finding, binding, terms_at, print, deletion, for_each, other_by, change_by, statement_by, statement_at};

use crate::basic::{end_of, forms_at, misfit, name_at, next_at, some_at, two_names};
use crate::cell::cells_at;
use crate::fault::Stop;
use crate::query::query;
use crate::term::{one_term, term_at};
use crate::word::feature_at;
use sqlite_items::Items;
use st_query::{Statement, Term, Terms};
use st_sexp::{Ahead, Form, is_word};
use st_text::Letters;
use std::alloc::Global;

/// The feature and the entity of a change.
fn target_parts(alloc: Global, place: u32, parts: Ahead<Form>) -> Result<(Letters, Term), Stop>
    ensures { Answers misread_of result (target_parts place parts) }
{
    let (feature, parts) = next_at(place, parts)?;
    let feature = feature_at(feature)?;
    let entity = one_term(alloc, place, parts)?;
    Ok((feature, entity))
}

/// `(FEATURE TERM)`, whose attribute is to change.
fn target_at(alloc: Global, form: Form) -> Result<(Letters, Term), Stop>
    ensures { Answers misread_of result (target_at form) }
{
    let place = form.from;
    let parts = forms_at(alloc, form)?;
    target_parts(alloc, place, parts)
}

/// `(FEATURE TERM) TERM`: the feature, the entity and the value of a change.
fn change(alloc: Global, place: u32, parts: Ahead<Form>) -> Result<(Letters, Term, Term), Stop>
    ensures { Answers misread_of result (change place parts) }
{
    let (target, parts) = next_at(place, parts)?;
    let (feature, entity) = target_at(alloc, target)?;
    let value = one_term(alloc, place, parts)?;
    Ok((feature, entity, value))
}

/// `VAR TYPE (ATTRIBUTE TERM) ..`.
fn make(alloc: Global, place: u32, parts: Ahead<Form>) -> Result<Statement, Stop>
    ensures { Answers misread_of result (make place parts) }
{
    let (var, ty, forms) = two_names(place, parts)?;
    let cells = cells_at(alloc, forms)?;
    Ok(Statement::Make { var, ty, cells })
}

/// `VAR TYPE (KEY TERM) (ATTRIBUTE TERM) ..`.
fn ensure(alloc: Global, place: u32, parts: Ahead<Form>) -> Result<Statement, Stop>
    ensures { Answers misread_of result (ensure place parts) }
{
    let (var, ty, forms) = two_names(place, parts)?;
    let forms = some_at(place, forms)?;
    let cells = cells_at(alloc, forms)?;
    Ok(Statement::Ensure { var, ty, cells })
}

/// `VAR TYPE ATTRIBUTE TERM`.
fn finding(alloc: Global, place: u32, parts: Ahead<Form>) -> Result<Statement, Stop>
    ensures { Answers misread_of result (finding place parts) }
{
    let (var, ty, parts) = two_names(place, parts)?;
    let (key, parts) = next_at(place, parts)?;
    let key = name_at(key)?;
    let value = one_term(alloc, place, parts)?;
    Ok(Statement::Find {
        var,
        ty,
        key,
        value,
    })
}

/// `VAR TERM`.
fn binding(alloc: Global, place: u32, parts: Ahead<Form>) -> Result<Statement, Stop>
    ensures { Answers misread_of result (binding place parts) }
{
    let (var, parts) = next_at(place, parts)?;
    let var = name_at(var)?;
    let value = one_term(alloc, place, parts)?;
    Ok(Statement::Let { var, value })
}

/// Terms, one form each.
fn terms_at(alloc: Global, forms: Ahead<Form>) -> Result<Terms, Stop>
    ensures { Answers misread_of result (terms_at forms) }
{
    let mut forms = forms;
    let mut terms = Items::new(alloc);
    while let Some(form) = forms.next() {
        terms.push(term_at(alloc, form)?)?;
    }
    Ok(terms)
}

/// `TERM ..`, one at least.
fn print(alloc: Global, place: u32, parts: Ahead<Form>) -> Result<Statement, Stop>
    ensures { Answers misread_of result (print place parts) }
{
    let forms = some_at(place, parts)?;
    let terms = terms_at(alloc, forms)?;
    Ok(Statement::Print { terms })
}

/// `TERM`, to be deleted.
fn deletion(alloc: Global, place: u32, parts: Ahead<Form>) -> Result<Statement, Stop>
    ensures { Answers misread_of result (deletion place parts) }
{
    let target = one_term(alloc, place, parts)?;
    Ok(Statement::Delete { target })
}

/// `(VAR TYPE)` and the parts of a query.
fn for_each(alloc: Global, place: u32, parts: Ahead<Form>) -> Result<Statement, Stop>
    ensures { Answers misread_of result (for_each place parts) }
{
    let query = query(alloc, place, parts)?;
    Ok(Statement::ForEach { query })
}

/// A statement by its head: one that finds, binds, prints or gives up.
fn other_by(alloc: Global, place: u32, head: &Form, parts: Ahead<Form>) -> Result<Statement, Stop>
    ensures { Answers misread_of result (other_by place head.now parts) }
{
    if is_word(head, b"find") {
        finding(alloc, place, parts)
    } else if is_word(head, b"let") {
        binding(alloc, place, parts)
    } else if is_word(head, b"print") {
        print(alloc, place, parts)
    } else if is_word(head, b"for-each") {
        for_each(alloc, place, parts)
    } else if is_word(head, b"abort") {
        end_of(parts, Statement::Abort)
    } else {
        Err(misfit(place))
    }
}

/// A statement that changes a feature, or one of the others.
fn change_by(alloc: Global, place: u32, head: &Form, parts: Ahead<Form>) -> Result<Statement, Stop>
    ensures { Answers misread_of result (change_by place head.now parts) }
{
    if is_word(head, b"set") {
        let (attribute, target, value) = change(alloc, place, parts)?;
        Ok(Statement::Set {
            attribute,
            target,
            value,
        })
    } else if is_word(head, b"add-to-set") {
        let (attribute, target, value) = change(alloc, place, parts)?;
        Ok(Statement::Add {
            attribute,
            target,
            value,
        })
    } else if is_word(head, b"delete-from-set") {
        let (attribute, target, value) = change(alloc, place, parts)?;
        Ok(Statement::Take {
            attribute,
            target,
            value,
        })
    } else {
        other_by(alloc, place, head, parts)
    }
}

/// A statement by its head.
fn statement_by(
    alloc: Global,
    place: u32,
    head: &Form,
    parts: Ahead<Form>,
) -> Result<Statement, Stop>
    ensures { Answers misread_of result (statement_by place head.now parts) }
{
    if is_word(head, b"make") {
        make(alloc, place, parts)
    } else if is_word(head, b"ensure") {
        ensure(alloc, place, parts)
    } else if is_word(head, b"delete-entity") {
        deletion(alloc, place, parts)
    } else {
        change_by(alloc, place, head, parts)
    }
}

/// A statement.
#[tactic(auto, unfolding(crate::specs::Statements::statement_at))]
pub fn statement_at(alloc: Global, form: Form) -> Result<Statement, Stop>
    ensures { Answers misread_of result (statement_at form) }
{
    let place = form.from;
    let parts = forms_at(alloc, form)?;
    let (head, parts) = next_at(place, parts)?;
    statement_by(alloc, place, &head, parts)
}
