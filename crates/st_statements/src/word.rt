//! What words mean in terms: qualified names, entities, constants and variables.
ghost use Rattle.std.specs.Prelude.{◌≡◌, ◌<◌, IsTrue, IfOk};
ghost use Rattle.std.specs.Char.{is_ascii_digit};
ghost use Rattle.std.specs.Prelude.{slice_index};
ghost use Rattle.std.specs.Option.{option_map};
ghost use Rattle.st_text.specs.Answer.{Answers};
ghost use Rattle.st_statements.specs.Faults.{misread_of};
ghost use Rattle.st_statements.specs.Terms.{halves, is_qualified, qualified, feature_at, number_of, serial_of, entity_parts, entity_of, term_word};

use crate::basic::misfit;
use crate::fault::Stop;
use st_query::{Literal, Term};
use st_sexp::{Form, into_name, is_name};
use st_text::Letters;
use std::alloc::{AllocError, Global};

/// What stands before and behind the first mark of this kind in a word.
fn halves(word: &str, mark: char) -> Option<(&str, &str)>
    requires { mark < 128 }
    ensures { option_map (λ p. (p.0.now, p.1.now)) result ≡ halves mark word.now }
{
    word.split_once(mark)
}

/// Whether a word is two names with a dot between them.
fn is_qualified(word: &str) -> bool
    ensures { result ≡ is_qualified word.now }
{
    match halves(word, '.') {
        Some((ty, name)) => is_name(ty.as_bytes()) && is_name(name.as_bytes()),
        None => false,
    }
}

/// The letters of a qualified name.
fn qualified(form: Form) -> Option<Letters>
    ensures { result ≡ qualified form }
{
    let word = into_name(form)?;
    if is_qualified(word.as_str()) {
        Some(word)
    } else {
        None
    }
}

/// The qualified name of a feature.
pub(crate) fn feature_at(form: Form) -> Result<Letters, Stop>
    ensures { Answers misread_of result (feature_at form) }
{
    let place = form.from;
    match qualified(form) {
        Some(feature) => Ok(feature),
        None => Err(misfit(place)),
    }
}

/// The number that digits write, where it has 32 bits.
fn number_of(digits: &str) -> Option<u32>
    requires { IsTrue (is_ascii_digit (slice_index digits.now 0)) }
    ensures { result ≡ number_of digits.now }
{
    digits.parse::<u32>().ok()
}

/// The number of an entity: digits without a leading zero, from 1 to 4,294,967,295.
fn serial_of(digits: &str) -> Option<u32>
    ensures { result ≡ serial_of digits.now }
{
    match digits.as_bytes() {
        [first, ..] if first.is_ascii_digit() && *first != b'0' => number_of(digits),
        _ => None,
    }
}

/// The name of a type and the number of an entity of it, where they are such.
fn entity_parts<'a>(ty: &'a str, digits: &str) -> Option<(&'a str, u32)>
    ensures { option_map (λ p. (p.0.now, p.1)) result ≡ entity_parts (ty.now, digits.now) }
{
    if !is_name(ty.as_bytes()) {
        return None;
    }
    let serial = serial_of(digits)?;
    Some((ty, serial))
}

/// An entity that is written out: the name of its type, `#` and its number.
fn entity_of(alloc: Global, word: &str) -> Result<Option<Term>, AllocError>
    ensures { IfOk result (λ found. found ≡ entity_of word.now) }
{
    let Some((ty, digits)) = halves(word, '#') else {
        return Ok(None);
    };
    let Some((ty, serial)) = entity_parts(ty, digits) else {
        return Ok(None);
    };
    let ty = Letters::from_text(alloc, ty)?;
    Ok(Some(Term::Literal(Literal::Entity(ty, serial))))
}

/// Null, a truth value, a variable or an entity, by its word.
pub(crate) fn term_word(alloc: Global, word: Letters) -> Result<Option<Term>, AllocError>
    ensures { IfOk result (λ found. found ≡ term_word word) }
{
    if word.as_slice() == b"null".as_slice() {
        Ok(Some(Term::Literal(Literal::Null)))
    } else if word.as_slice() == b"true".as_slice() {
        Ok(Some(Term::Literal(Literal::Bool(true))))
    } else if word.as_slice() == b"false".as_slice() {
        Ok(Some(Term::Literal(Literal::Bool(false))))
    } else if is_name(word.as_slice()) {
        Ok(Some(Term::Variable(word)))
    } else {
        entity_of(alloc, word.as_str())
    }
}
