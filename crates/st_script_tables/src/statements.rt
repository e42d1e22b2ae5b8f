//! How statements are told: each by its word, and then its parts in the order of the text.

use crate::queries::push_query;
use crate::terms::{push_term, push_terms};
use st_query::{Cell, Cells, Statement, Term};
use st_text::Letters;
use std::alloc::{AllocError, Global};
use std::fmt::Write;

/// Adds a statement.
pub fn push_statement(
    alloc: Global,
    statement: &Statement,
    out: &mut String,
) -> Result<(), AllocError> {
    match statement {
        Statement::Make { var, ty, cells } => push_cells(alloc, "make", var, ty, cells, out),
        Statement::Set {
            attribute,
            target,
            value,
        } => push_change(alloc, "set", attribute, target, value, out),
        Statement::Add {
            attribute,
            target,
            value,
        } => push_change(alloc, "add", attribute, target, value, out),
        Statement::Take {
            attribute,
            target,
            value,
        } => push_change(alloc, "take", attribute, target, value, out),
        Statement::Delete { target } => push_deletion(alloc, target, out),
        Statement::Find {
            var,
            ty,
            key,
            value,
        } => push_finding(alloc, var, ty, key, value, out),
        Statement::Ensure { var, ty, cells } => push_cells(alloc, "ensure", var, ty, cells, out),
        Statement::Let { var, value } => push_binding(alloc, var, value, out),
        Statement::Print { terms } => push_print(alloc, terms.as_slice(), out),
        Statement::ForEach { query } => push_query(alloc, query, out),
        Statement::Abort => out.push_str("abort"),
    }
}

/// Adds a statement that gives an entity its cells, as `make p t a=1 b=2`.
fn push_cells(
    alloc: Global,
    word: &str,
    var: &Letters,
    ty: &Letters,
    cells: &Cells,
    out: &mut String,
) -> Result<(), AllocError> {
    write!(out, "{word} {} {}", var.as_str(), ty.as_str())?;
    for cell in cells.as_slice() {
        push_cell(alloc, cell, out)?;
    }
    Ok(())
}

fn push_cell(alloc: Global, cell: &Cell, out: &mut String) -> Result<(), AllocError> {
    write!(out, " {}=", cell.name.as_str())?;
    push_term(alloc, &cell.value, out)
}

/// Adds a change of an attribute, as `set t.a($p) 5`.
fn push_change(
    alloc: Global,
    word: &str,
    attribute: &Letters,
    target: &Term,
    value: &Term,
    out: &mut String,
) -> Result<(), AllocError> {
    write!(out, "{word} {}(", attribute.as_str())?;
    push_term(alloc, target, out)?;
    out.push_str(") ")?;
    push_term(alloc, value, out)
}

fn push_deletion(alloc: Global, target: &Term, out: &mut String) -> Result<(), AllocError> {
    out.push_str("delete ")?;
    push_term(alloc, target, out)
}

/// Adds a search, as `find p t a=1`.
fn push_finding(
    alloc: Global,
    var: &Letters,
    ty: &Letters,
    key: &Letters,
    value: &Term,
    out: &mut String,
) -> Result<(), AllocError> {
    let key = key.as_str();
    write!(out, "find {} {} {key}=", var.as_str(), ty.as_str())?;
    push_term(alloc, value, out)
}

fn push_binding(
    alloc: Global,
    var: &Letters,
    value: &Term,
    out: &mut String,
) -> Result<(), AllocError> {
    write!(out, "let {} ", var.as_str())?;
    push_term(alloc, value, out)
}

fn push_print(alloc: Global, terms: &[Term], out: &mut String) -> Result<(), AllocError> {
    out.push_str("print")?;
    push_terms(alloc, terms, out)
}
