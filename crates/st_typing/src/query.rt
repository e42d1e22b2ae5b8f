//! The checks of queries.
ghost use Rattle.std.specs.Prelude.{◌≡◌, map, IfOk};
ghost use Rattle.st_lattice.specs.Outline.{type_named};
ghost use Rattle.st_query.specs.declared.kind.Expected.TheVariants.{Anything, AnyValue};
ghost use Rattle.st_query.specs.Kinds.{known, known_in};
ghost use Rattle.st_state.specs.Refusals.{first_of};
ghost use Rattle.st_meaning.specs.Checks.{term_refused, typed_refused, condition_refused, parts_refused};
ghost use Rattle.st_typing.specs.Scope.{names_of};

use crate::scope::Scope;
use crate::term::{term_refused, term_sort, unknown_name};
use st_lattice::Schema;
use st_query::{Condition, Expected, Key, Query, Term, Variable};
use st_state::Refusal;
use std::alloc::{AllocError, Global};

/// The checks of a condition. Of two sides that don't compare the second one is wrong.
fn condition_refused(
    alloc: Global,
    schema: &Schema,
    scope: &Scope<'_>,
    condition: &Condition,
) -> Result<Option<Refusal>, AllocError>
    ensures { IfOk result (λ refused. refused ≡ condition_refused schema.now (names_of scope.now) condition.now) }
{
    match condition {
        Condition::Compare {
            sign: _,
            left,
            right,
        } => {
            if let Some(refusal) = term_refused(alloc, schema, scope, Expected::AnyValue, left)? {
                return Ok(Some(refusal));
            }
            let expected = Expected::Comparable(term_sort(schema, scope, left));
            term_refused(alloc, schema, scope, expected, right)
        }
        Condition::Null(term) => term_refused(alloc, schema, scope, Expected::AnyValue, term),
        Condition::NotNull(term) => term_refused(alloc, schema, scope, Expected::AnyValue, term),
        Condition::Member { value, set } => {
            if let Some(refusal) = term_refused(alloc, schema, scope, Expected::AnyValue, value)? {
                return Ok(Some(refusal));
            }
            let expected = Expected::SetOf(term_sort(schema, scope, value));
            term_refused(alloc, schema, scope, expected, set)
        }
    }
}

fn conditions_refused(
    alloc: Global,
    schema: &Schema,
    scope: &Scope<'_>,
    conditions: &[Condition],
) -> Result<Option<Refusal>, AllocError>
    ensures { IfOk result (λ refused. refused ≡ first_of (map (condition_refused schema.now (names_of scope.now)) conditions.now)) }
{
    for condition in conditions {
        if let Some(refusal) = condition_refused(alloc, schema, scope, condition)? {
            return Ok(Some(refusal));
        }
    }
    Ok(None)
}

fn keys_refused(
    alloc: Global,
    schema: &Schema,
    scope: &Scope<'_>,
    keys: &[Key],
) -> Result<Option<Refusal>, AllocError>
    ensures { IfOk result (λ refused. refused ≡ first_of (map (λ key. term_refused schema.now (names_of scope.now) AnyValue key.term) keys.now)) }
{
    for key in keys {
        if let Some(refusal) = term_refused(alloc, schema, scope, Expected::AnyValue, &key.term)? {
            return Ok(Some(refusal));
        }
    }
    Ok(None)
}

/// The checks of terms that are shown or printed.
pub(crate) fn shown_refused(
    alloc: Global,
    schema: &Schema,
    scope: &Scope<'_>,
    terms: &[Term],
) -> Result<Option<Refusal>, AllocError>
    ensures { IfOk result (λ refused. refused ≡ first_of (map (term_refused schema.now (names_of scope.now) Anything) terms.now)) }
{
    for term in terms {
        if let Some(refusal) = term_refused(alloc, schema, scope, Expected::Anything, term)? {
            return Ok(Some(refusal));
        }
    }
    Ok(None)
}

/// The checks of the parts of a query whose type is there: its conditions, its keys, what it shows.
#[tactic(auto, using(crate::proofs::Firsts::first_of_parts))]
fn parts_refused(
    alloc: Global,
    schema: &Schema,
    scope: &Scope<'_>,
    query: &Query,
) -> Result<Option<Refusal>, AllocError>
    ensures { IfOk result (λ refused. refused ≡ parts_refused schema.now query.now (names_of scope.now)) }
{
    if let Some(refusal) = conditions_refused(alloc, schema, scope, query.conditions.as_slice())? {
        return Ok(Some(refusal));
    }
    if let Some(refusal) = keys_refused(alloc, schema, scope, query.keys.as_slice())? {
        return Ok(Some(refusal));
    }
    shown_refused(alloc, schema, scope, query.shown.as_slice())
}

/// The first refusal of a query by the rules on names and kinds, 1 and 2, in one pass in text order, or none: its
/// type, its conditions, its keys, what it shows. `AllocError` where there is no memory.
pub fn query_refused(
    alloc: Global,
    schema: &Schema,
    variables: &[Variable],
    query: &Query,
) -> Result<Option<Refusal>, AllocError>
    ensures { IfOk result (λ refused. refused ≡ typed_refused query.now.ty
        (λ ty. parts_refused schema.now query.now (known_in (known variables.now) query.now ty)) (type_named schema.now query.now.ty)) }
{
    match schema.type_named(query.ty.as_slice()) {
        Some(ty) => {
            let var = query.var.as_slice();
            let scope = Scope::Inside { var, ty, variables };
            parts_refused(alloc, schema, &scope, query)
        }
        None => unknown_name(alloc, query.ty.as_str()),
    }
}
