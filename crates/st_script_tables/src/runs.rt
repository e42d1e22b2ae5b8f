//! How transactions and scripts are told.

use crate::statements::push_statement;
use st_query::{Statement, Transaction};
use std::alloc::{AllocError, Global};
use std::fmt::Write;

/// Adds transactions with a blank before each, or that there is none.
pub fn push_script(
    alloc: Global,
    script: &[Transaction],
    out: &mut String,
) -> Result<(), AllocError> {
    if script.is_empty() {
        return out.push_str(" nothing");
    }
    for transaction in script {
        push_transaction(alloc, transaction, out)?;
    }
    Ok(())
}

/// Adds a blank and a transaction, as `[print 1; abort]`.
pub fn push_transaction(
    alloc: Global,
    transaction: &Transaction,
    out: &mut String,
) -> Result<(), AllocError> {
    out.push_str(" [")?;
    push_statements(alloc, transaction.statements.as_slice(), out)?;
    out.push(']')
}

/// Adds statements with `; ` between them. Where one stands several times in a row, it is told once, as `3 of abort`.
fn push_statements(
    alloc: Global,
    statements: &[Statement],
    out: &mut String,
) -> Result<(), AllocError> {
    let mut last = String::new(alloc);
    let mut count = 0u64;
    let mut is_behind = false;
    for statement in statements {
        let told = statement_text(alloc, statement)?;
        if told.as_str() == last.as_str() {
            count = count.saturating_add(1);
        } else {
            is_behind = push_run(last.as_str(), count, is_behind, out)?;
            last = told;
            count = 1;
        }
    }
    push_run(last.as_str(), count, is_behind, out)?;
    Ok(())
}

fn statement_text(alloc: Global, statement: &Statement) -> Result<String, AllocError> {
    let mut told = String::new(alloc);
    push_statement(alloc, statement, &mut told)?;
    Ok(told)
}

/// Adds a statement that stands so many times in a row, where it does at all; whether something stands before what is
/// added next.
fn push_run(told: &str, count: u64, is_behind: bool, out: &mut String) -> Result<bool, AllocError> {
    if count == 0 {
        return Ok(is_behind);
    }
    if is_behind {
        out.push_str("; ")?;
    }
    if count > 1 {
        write!(out, "{count} of ")?;
    }
    out.push_str(told)?;
    Ok(true)
}
