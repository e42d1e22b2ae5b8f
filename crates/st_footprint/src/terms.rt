//! The terms of a statement, in text order.
ghost use Rattle.std.specs.Prelude.{◌≡◌, ◌++◌, [], ◌∷◌, map, flat_map, IfOk, OnOk};
ghost use Rattle.st_query.specs.Written.{condition_terms, query_terms, terms_of};
ghost use Rattle.st_footprint.specs.Terms.{targets};

use st_query::{Cell, Condition, Key, Query, Statement, Term};
use std::alloc::{AllocError, Global};

fn push<'a>(term: &'a Term, into: &mut Vec<&'a Term>) -> Result<(), AllocError>
    ensures { OnOk result (targets into.new.items ≡ targets into.old.items ++ term.now ∷ []) }
{
    into.push(term)?;
    Ok(())
}

fn push_two<'a>(
    first: &'a Term,
    second: &'a Term,
    into: &mut Vec<&'a Term>,
) -> Result<(), AllocError>
    ensures { OnOk result (targets into.new.items ≡ targets into.old.items ++ first.now ∷ second.now ∷ []) }
{
    push(first, into)?;
    push(second, into)
}

fn push_all<'a>(terms: &'a [Term], into: &mut Vec<&'a Term>) -> Result<(), AllocError>
    ensures { OnOk result (targets into.new.items ≡ targets into.old.items ++ terms.now) }
{
    for term in terms {
        push(term, into)?;
    }
    Ok(())
}

fn push_cells<'a>(cells: &'a [Cell], into: &mut Vec<&'a Term>) -> Result<(), AllocError>
    ensures { OnOk result (targets into.new.items ≡ targets into.old.items ++ map (λ cell. cell.value) cells.now) }
{
    for cell in cells {
        push(&cell.value, into)?;
    }
    Ok(())
}

fn push_condition<'a>(condition: &'a Condition, into: &mut Vec<&'a Term>) -> Result<(), AllocError>
    ensures { OnOk result (targets into.new.items ≡ targets into.old.items ++ condition_terms condition.now) }
{
    match condition {
        Condition::Compare { left, right, .. } => push_two(left, right, into),
        Condition::Null(term) | Condition::NotNull(term) => push(term, into),
        Condition::Member { value, set } => push_two(value, set, into),
    }
}

fn push_conditions<'a>(
    conditions: &'a [Condition],
    into: &mut Vec<&'a Term>,
) -> Result<(), AllocError>
    ensures { OnOk result (targets into.new.items ≡ targets into.old.items ++ flat_map condition_terms conditions.now) }
{
    for condition in conditions {
        push_condition(condition, into)?;
    }
    Ok(())
}

fn push_keys<'a>(keys: &'a [Key], into: &mut Vec<&'a Term>) -> Result<(), AllocError>
    ensures { OnOk result (targets into.new.items ≡ targets into.old.items ++ map (λ key. key.term) keys.now) }
{
    for key in keys {
        push(&key.term, into)?;
    }
    Ok(())
}

fn push_query<'a>(query: &'a Query, into: &mut Vec<&'a Term>) -> Result<(), AllocError>
    ensures { OnOk result (targets into.new.items ≡ targets into.old.items ++ query_terms query.now) }
{
    push_conditions(query.conditions.as_slice(), into)?;
    push_keys(query.keys.as_slice(), into)?;
    push_all(query.shown.as_slice(), into)
}

fn push_statement<'a>(statement: &'a Statement, into: &mut Vec<&'a Term>) -> Result<(), AllocError>
    ensures { OnOk result (targets into.new.items ≡ targets into.old.items ++ terms_of statement.now) }
{
    match statement {
        Statement::Make { cells, .. } | Statement::Ensure { cells, .. } => {
            push_cells(cells.as_slice(), into)
        }
        Statement::Set { target, value, .. }
        | Statement::Add { target, value, .. }
        | Statement::Take { target, value, .. } => push_two(target, value, into),
        Statement::Delete { target } => push(target, into),
        Statement::Find { value, .. } | Statement::Let { value, .. } => push(value, into),
        Statement::Print { terms } => push_all(terms.as_slice(), into),
        Statement::ForEach { query } => push_query(query, into),
        Statement::Abort => Ok(()),
    }
}

/// The terms of a statement, in text order.
pub(crate) fn terms_of(alloc: Global, statement: &Statement) -> Result<Vec<&Term>, AllocError>
    ensures { IfOk result (λ terms. targets terms.items ≡ terms_of statement.now) }
{
    let mut terms = Vec::new(alloc);
    push_statement(statement, &mut terms)?;
    Ok(terms)
}
