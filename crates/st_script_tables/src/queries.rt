//! How queries are told.

use crate::terms::{push_term, push_terms};
use st_query::{Condition, Key, Query, Sign, Term};
use std::alloc::{AllocError, Global};
use std::fmt::Write;

/// Adds a query, as `for-each p t where $p = 1 and t.a($p) is null by t.a($p) asc show $p 5`, without the parts that are
/// empty.
pub fn push_query(alloc: Global, query: &Query, out: &mut String) -> Result<(), AllocError> {
    write!(out, "for-each {} {}", query.var.as_str(), query.ty.as_str())?;
    push_conditions(alloc, query.conditions.as_slice(), out)?;
    push_keys(alloc, query.keys.as_slice(), out)?;
    push_shown(alloc, query.shown.as_slice(), out)
}

fn push_conditions(
    alloc: Global,
    conditions: &[Condition],
    out: &mut String,
) -> Result<(), AllocError> {
    let mut word = " where ";
    for condition in conditions {
        out.push_str(word)?;
        push_condition(alloc, condition, out)?;
        word = " and ";
    }
    Ok(())
}

fn push_condition(
    alloc: Global,
    condition: &Condition,
    out: &mut String,
) -> Result<(), AllocError> {
    match condition {
        Condition::Compare { sign, left, right } => {
            push_two(alloc, left, sign_text(*sign), right, out)
        }
        Condition::Null(term) => {
            push_term(alloc, term, out)?;
            out.push_str(" is null")
        }
        Condition::NotNull(term) => {
            push_term(alloc, term, out)?;
            out.push_str(" is not null")
        }
        Condition::Member { value, set } => push_two(alloc, value, " in ", set, out),
    }
}

/// Adds two terms with a word between them.
fn push_two(
    alloc: Global,
    left: &Term,
    word: &str,
    right: &Term,
    out: &mut String,
) -> Result<(), AllocError> {
    push_term(alloc, left, out)?;
    out.push_str(word)?;
    push_term(alloc, right, out)
}

fn sign_text(sign: Sign) -> &'static str {
    match sign {
        Sign::Equal => " = ",
        Sign::Differs => " /= ",
        Sign::Below => " < ",
        Sign::AtMost => " <= ",
        Sign::Above => " > ",
        Sign::AtLeast => " >= ",
    }
}

fn push_keys(alloc: Global, keys: &[Key], out: &mut String) -> Result<(), AllocError> {
    let mut word = " by ";
    for key in keys {
        out.push_str(word)?;
        push_term(alloc, &key.term, out)?;
        out.push_str(if key.descending { " desc" } else { " asc" })?;
        word = " then ";
    }
    Ok(())
}

fn push_shown(alloc: Global, shown: &[Term], out: &mut String) -> Result<(), AllocError> {
    if shown.is_empty() {
        return Ok(());
    }
    out.push_str(" show")?;
    push_terms(alloc, shown, out)
}
