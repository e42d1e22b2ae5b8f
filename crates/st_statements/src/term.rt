//! How terms are written.
ghost use Rattle.std.specs.Prelude.{◌≡◌};
ghost use Rattle.st_text.specs.Answer.{Answers};
ghost use Rattle.st_statements.specs.Faults.{misread_of};
ghost use Rattle.st_statements.specs.Terms.{word_at, lacking, start_of, start_at, path_along, path_term, term_at, one_term, two_terms};

use crate::basic::{end_of, end_of_forms, misfit, next_at};
use crate::fault::Stop;
use crate::word::{feature_at, term_word};
use sqlite_items::Boxed;
use st_query::{Literal, Term};
use st_sexp::{Ahead, Form, Forms, Path, Shape, Step, descent};
use st_text::Letters;
use std::alloc::Global;

/// Null, a truth value, a variable or an entity, which stands at a place.
fn word_at(alloc: Global, place: u32, word: Letters) -> Result<Term, Stop>
    ensures { Answers misread_of result (word_at place word) }
{
    match term_word(alloc, word)? {
        Some(term) => Ok(term),
        None => Err(misfit(place)),
    }
}

/// What is wrong with a list that lacks a feature or a term.
fn lacking(alloc: Global, place: u32, forms: Forms) -> Result<Term, Stop>
    ensures { Answers misread_of result (lacking place forms) }
{
    let (head, _) = next_at(place, Ahead::new(alloc, forms)?)?;
    feature_at(head)?;
    Err(misfit(place))
}

/// What a path begins with.
#[tactic(auto, unfolding(crate::specs::Terms::start_at))]
fn start_at(alloc: Global, form: Form) -> Result<Term, Stop>
    ensures { Answers misread_of result (start_at form) }
{
    let Form { shape, from, .. } = form;
    match shape {
        Shape::Name(word) => word_at(alloc, from, word),
        Shape::Number(number) => Ok(Term::Literal(Literal::Int(number))),
        Shape::Quoted(text) => Ok(Term::Literal(Literal::Text(text))),
        Shape::List(forms) => lacking(alloc, from, forms),
    }
}

/// The features of a path from the outermost list on, then what it begins with, then what is too much.
fn path_along(alloc: Global, steps: Ahead<Step>, inner: Form) -> Result<Term, Stop>
    ensures { Answers misread_of result (path_along steps inner) }
{
    let mut steps = steps;
    match steps.next() {
        None => start_at(alloc, inner),
        Some(step) => {
            let Step { head, more } = step;
            let feature = feature_at(head)?;
            let below = path_along(alloc, steps, inner)?;
            let below = Boxed::new(alloc, below)?;
            end_of_forms(more.as_slice(), Term::Path(feature, below))
        }
    }
}

/// A term.
#[tactic(auto, unfolding(crate::specs::Terms::term_at))]
pub(crate) fn term_at(alloc: Global, form: Form) -> Result<Term, Stop>
    ensures { Answers misread_of result (term_at form) }
{
    let Path { levels, inner } = descent(alloc, form)?;
    path_along(alloc, levels, inner)
}

/// One term, and nothing behind it.
pub(crate) fn one_term(alloc: Global, place: u32, parts: Ahead<Form>) -> Result<Term, Stop>
    ensures { Answers misread_of result (one_term place parts) }
{
    let (form, parts) = next_at(place, parts)?;
    let term = term_at(alloc, form)?;
    end_of(parts, term)
}

/// Two terms, and nothing behind them.
pub(crate) fn two_terms(alloc: Global, place: u32, parts: Ahead<Form>) -> Result<(Term, Term), Stop>
    ensures { Answers misread_of result (two_terms place parts) }
{
    let (form, parts) = next_at(place, parts)?;
    let first = term_at(alloc, form)?;
    let second = one_term(alloc, place, parts)?;
    Ok((first, second))
}
