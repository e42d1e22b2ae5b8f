//! The checks of terms.
ghost use Rattle.std.specs.Prelude.{◌≡◌, Some, IfOk};
ghost use Rattle.st_query.specs.Kinds.{literal_name, term_sort};
ghost use Rattle.st_state.specs.declared.refusal.Refusal.TheVariants.{UnknownName};
ghost use Rattle.st_meaning.specs.Checks.{wrong_unless, fit_or_refused, term_refused};
ghost use Rattle.st_typing.specs.Scope.{names_of};

use crate::kinds::{expected_under, feature_typing, fits, literal_typing, typing_sort};
use crate::scope::Scope;
use st_lattice::Schema;
use st_query::{Expected, Literal, Sort, Term, Typing};
use st_state::Refusal;
use st_values::Letters;
use std::alloc::{AllocError, Global};

/// Rule 1 for a name.
pub(crate) fn unknown_name(alloc: Global, name: &str) -> Result<Option<Refusal>, AllocError>
    ensures { IfOk result (λ refused. refused ≡ Some (UnknownName name.now)) }
{
    let name = Letters::from_text(alloc, name)?;
    Ok(Some(Refusal::UnknownName { name }))
}

/// Rule 2 where something isn't so.
pub(crate) fn wrong_unless(right: bool) -> Option<Refusal>
    ensures { result ≡ wrong_unless right }
{
    if right {
        None
    } else {
        Some(Refusal::WrongType)
    }
}

/// Rule 1 where a name isn't there, and rule 2 where what is given doesn't fit what is wanted.
fn fit_or_refused(
    alloc: Global,
    schema: &Schema,
    expected: Expected,
    name: &str,
    typing: Option<Typing>,
) -> Result<Option<Refusal>, AllocError>
    ensures { IfOk result (λ refused. refused ≡ fit_or_refused schema.now expected name.now typing) }
{
    match typing {
        Some(typing) => Ok(wrong_unless(fits(schema, expected, typing))),
        None => unknown_name(alloc, name),
    }
}

/// The name that is looked up for a literal; most have none.
fn literal_name(literal: &Literal) -> &str
    ensures { result.now ≡ literal_name literal.now }
{
    match literal {
        Literal::Entity(ty, _) => ty.as_str(),
        _ => "",
    }
}

/// The checks of a term in its place, an outer form before its parts.
#[tactic(auto, using(crate::proofs::Steps::refused_of_literal, crate::proofs::Steps::refused_of_variable, crate::proofs::Steps::refused_of_path))]
pub(crate) fn term_refused(
    alloc: Global,
    schema: &Schema,
    scope: &Scope<'_>,
    expected: Expected,
    term: &Term,
) -> Result<Option<Refusal>, AllocError>
    ensures { IfOk result (λ refused. refused ≡ term_refused schema.now (names_of scope.now) expected term.now) }
{
    match term {
        Term::Literal(literal) => {
            let typing = literal_typing(schema, literal);
            fit_or_refused(alloc, schema, expected, literal_name(literal), typing)
        }
        Term::Variable(name) => {
            let typing = scope.typing_of(name.as_slice());
            fit_or_refused(alloc, schema, expected, name.as_str(), typing)
        }
        Term::Path(feature, inner) => {
            let called = schema.called(feature.as_slice());
            let name = feature.as_str();
            let typing = feature_typing(called);
            if let Some(refusal) = fit_or_refused(alloc, schema, expected, name, typing)? {
                return Ok(Some(refusal));
            }
            term_refused(alloc, schema, scope, expected_under(called), inner.get())
        }
    }
}

/// The sort of a term.
#[tactic(auto, using(crate::proofs::Steps::sort_of_literal, crate::proofs::Steps::sort_of_variable, crate::proofs::Steps::sort_of_path))]
pub(crate) fn term_sort(schema: &Schema, scope: &Scope<'_>, term: &Term) -> Sort
    ensures { result ≡ term_sort schema.now (names_of scope.now) term.now }
{
    match term {
        Term::Literal(literal) => typing_sort(literal_typing(schema, literal)),
        Term::Variable(name) => typing_sort(scope.typing_of(name.as_slice())),
        Term::Path(feature, _) => typing_sort(feature_typing(schema.called(feature.as_slice()))),
    }
}
