//! How terms are told.

use st_query::{Literal, Term};
use st_text::{Duplicate, Letters};
use st_values::{Value, print_value};
use std::alloc::{AllocError, Global};
use std::fmt::Write;

/// Adds a term: a variable behind `$`, a path as `t.a($p)`, and a literal as it is printed.
pub fn push_term(alloc: Global, term: &Term, out: &mut String) -> Result<(), AllocError> {
    match term {
        Term::Literal(literal) => push_literal(alloc, literal, out),
        Term::Variable(name) => {
            out.push('$')?;
            out.push_str(name.as_str())
        }
        Term::Path(feature, inner) => {
            out.push_str(feature.as_str())?;
            out.push('(')?;
            push_term(alloc, inner.get(), out)?;
            out.push(')')
        }
    }
}

/// Adds terms with a blank before each.
pub fn push_terms(alloc: Global, terms: &[Term], out: &mut String) -> Result<(), AllocError> {
    for term in terms {
        out.push(' ')?;
        push_term(alloc, term, out)?;
    }
    Ok(())
}

fn push_literal(alloc: Global, literal: &Literal, out: &mut String) -> Result<(), AllocError> {
    match literal {
        Literal::Null => out.push_str("null"),
        Literal::Int(number) => write!(out, "{number}"),
        Literal::Bool(truth) => write!(out, "{truth}"),
        Literal::Text(text) => push_quoted(alloc, text, out),
        Literal::Entity(ty, serial) => write!(out, "{}#{serial}", ty.as_str()),
    }
}

fn push_quoted(alloc: Global, text: &Letters, out: &mut String) -> Result<(), AllocError> {
    let value = Value::Text(text.copy(alloc)?);
    out.push_str(print_value(alloc, &value, &[])?.as_str())
}
