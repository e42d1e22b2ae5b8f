//! What texts are read as, by way of copies, or their first faults.

use crate::queries::push_query;
use crate::runs::{push_script, push_transaction};
use st_query::{Query, Script, Transaction};
use st_reader::{ScriptFault, read_forms, read_query, read_script, read_transaction, split};
use st_sexp::{Forms, SexpFault, read};
use st_text::Duplicate;
use std::alloc::{AllocError, Global};
use std::fmt::Write;

/// The script that a text is.
pub fn script(alloc: Global, text: &[u8]) -> Result<String, AllocError> {
    script_answer(alloc, read_script(alloc, text))
}

/// The transaction that a text is.
pub fn transaction(alloc: Global, text: &[u8]) -> Result<String, AllocError> {
    match read_transaction(alloc, text) {
        Ok(transaction) => transaction_text(alloc, &transaction),
        Err(fault) => fault_text(alloc, &fault),
    }
}

/// The query that a text is.
pub fn query(alloc: Global, text: &[u8]) -> Result<String, AllocError> {
    match read_query(alloc, text) {
        Ok(query) => query_text(alloc, &query),
        Err(fault) => fault_text(alloc, &fault),
    }
}

/// How many forms stand before the script of a text, and what that is.
pub fn program(alloc: Global, text: &[u8]) -> Result<String, AllocError> {
    match forms_of(alloc, text) {
        Ok(forms) => parts_text(alloc, forms),
        Err(fault) => fault_text(alloc, &ScriptFault::Text(fault)),
    }
}

/// The forms of a text; it has a fault of memory where it is longer than texts may be.
fn forms_of(alloc: Global, text: &[u8]) -> Result<Forms, SexpFault> {
    if text.len() > 1048576 {
        return Err(SexpFault::Memory);
    }
    read(alloc, text)
}

fn parts_text(alloc: Global, forms: Forms) -> Result<String, AllocError> {
    let (before, script) = split(alloc, forms)?;
    let count = before.len();
    let answer = script_answer(alloc, read_forms(alloc, script))?;
    format!(in alloc; " {count} before{answer}")
}

fn script_answer(alloc: Global, answer: Result<Script, ScriptFault>) -> Result<String, AllocError> {
    match answer {
        Ok(script) => script_text(alloc, &script),
        Err(fault) => fault_text(alloc, &fault),
    }
}

fn script_text(alloc: Global, script: &Script) -> Result<String, AllocError> {
    let mut out = String::new(alloc);
    let script = script.copy(alloc)?;
    push_script(alloc, script.as_slice(), &mut out)?;
    Ok(out)
}

fn transaction_text(alloc: Global, transaction: &Transaction) -> Result<String, AllocError> {
    let mut out = String::new(alloc);
    let transaction = transaction.copy(alloc)?;
    push_transaction(alloc, &transaction, &mut out)?;
    Ok(out)
}

fn query_text(alloc: Global, query: &Query) -> Result<String, AllocError> {
    let mut out = String::new(alloc);
    let query = query.copy(alloc)?;
    out.push(' ')?;
    push_query(alloc, &query, &mut out)?;
    Ok(out)
}

fn fault_text(alloc: Global, fault: &ScriptFault) -> Result<String, AllocError> {
    let mut out = String::new(alloc);
    let fault = fault.copy(alloc)?;
    push_fault(&fault, &mut out)?;
    Ok(out)
}

fn push_fault(fault: &ScriptFault, out: &mut String) -> Result<(), AllocError> {
    match fault {
        ScriptFault::Text(fault) => push_text_fault(fault, out),
        ScriptFault::Form { place } => write!(out, " form {place}"),
        ScriptFault::TooManyStatements { count } => write!(out, " statements {count}"),
        ScriptFault::BadClient { number } => write!(out, " client {number}"),
        ScriptFault::InputTooLong { bytes } => write!(out, " long {bytes}"),
        ScriptFault::Memory => out.push_str(" memory"),
    }
}

/// Adds the number of a text's fault, and its place.
fn push_text_fault(fault: &SexpFault, out: &mut String) -> Result<(), AllocError> {
    match fault {
        SexpFault::Unclosed { place } => write!(out, " text 1 {place}"),
        SexpFault::Stray { place } => write!(out, " text 2 {place}"),
        SexpFault::BadNumber { place } => write!(out, " text 3 {place}"),
        SexpFault::TooDeep { place } => write!(out, " text 4 {place}"),
        SexpFault::NotUtf8 { place } => write!(out, " text 5 {place}"),
        SexpFault::Memory => out.push_str(" memory"),
    }
}
