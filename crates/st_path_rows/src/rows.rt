//! A chain of four entities, and paths along it.

use crate::counting::Counting;
use sqlite_items::Items;
use st_plain::{BaseFault, Plain};
use st_reader::read_transaction;
use st_running::Running;
use st_schema::read_schema;
use st_sexp::read;
use st_text::Duplicate;
use st_values::Lines;
use std::alloc::{AllocError, Global};

const SCHEMA: &str =
    "(define-schema chain) (define-entity-type node () ((name string) (next node)))";

/// Four statements that make a chain, and paths along it, of no step up to four.
const ALONG_THE_CHAIN: &str = "(with-transaction
    (make d node (name \"end\"))
    (make c node (next d))
    (make b node (next c))
    (make a node (next b))
    (print a)
    (print (node.next a))
    (print (node.next (node.next a)))
    (print (node.next (node.next (node.next a))))
    (print (node.name (node.next (node.next (node.next a))))))";

/// No entities yet, and no value that was asked for. The text of the schema has no fault, so that only memory can want.
fn nothing_asked(alloc: Global) -> Result<Counting, AllocError> {
    let forms = read(alloc, SCHEMA.as_bytes()).map_err(|_| AllocError)?;
    let schema = read_schema(alloc, forms.as_slice()).map_err(|_| AllocError)?;
    Ok(Counting::new(Plain::new(alloc, schema)?))
}

/// The transaction before its first statement.
fn begun(alloc: Global) -> Result<Running, AllocError> {
    let transaction = read_transaction(alloc, ALONG_THE_CHAIN.as_bytes()).map_err(|_| AllocError)?;
    Ok(Running::begin(alloc, transaction))
}

/// Runs the next statement, if one is left.
fn step(alloc: Global, base: &mut Counting, running: &mut Running) -> Result<Lines, BaseFault> {
    if running.left() == 0 {
        return Ok(Items::new(alloc));
    }
    let schema = base.schema().copy(alloc)?;
    running.step(alloc, &schema, base)
}

/// The row of the next statement: how many values it asked for, and its lines.
fn row(alloc: Global, base: &mut Counting, running: &mut Running) -> Result<String, AllocError> {
    let before = base.gets();
    let lines = step(alloc, base, running).map_err(|_| AllocError)?;
    let gets = base.gets().saturating_sub(before);
    let mut row = format!(in alloc; "{gets}")?;
    for line in lines.as_slice() {
        row.push(' ')?;
        row.push_str(line.as_str())?;
    }
    row.push('\n')?;
    Ok(row)
}

/// A row for each statement.
pub fn rows(alloc: Global) -> Result<String, AllocError> {
    let mut base = nothing_asked(alloc)?;
    let mut running = begun(alloc)?;
    let mut rows = String::new(alloc);
    for _ in 0..running.left() {
        rows.push_str(row(alloc, &mut base, &mut running)?.as_str())?;
    }
    Ok(rows)
}
