//! Inputs: scripts, queries and transactions by their bytes, and scripts by their forms.
ghost use Rattle.std.specs.Prelude.{◌≡◌, IsTrue, IfOk, Result, Ok};
ghost use Rattle.std.specs.List.{list_all};
ghost use Rattle.st_text.specs.Answer.{Answers};
ghost use Rattle.st_statements.specs.declared.fault.Misread.{Misread};
ghost use Rattle.st_statements.specs.Faults.{misread_of};
ghost use Rattle.st_statements.specs.Queries.{query_at};
ghost use Rattle.st_reader.specs.Faults.{told, in_input};
ghost use Rattle.st_reader.specs.Scripts.{script, transaction_at, one_form};
ghost use Rattle.st_reader.specs.Inputs.{DueFor, is_transaction};

use crate::ScriptFault;
use crate::script::{one_query, one_transaction, script};
use st_query::{Query, Script, Transaction};
use st_sexp::{Forms, SexpFault, read};
use st_statements::Stop;
use std::alloc::Global;

/// How many bytes an input may have.
const MAX_BYTES: usize = 1048576;

/// What is answered to an input whose forms are read so.
fn in_input<T: Drop>(answer: Result<T, Stop>) -> Result<T, ScriptFault>
    ensures { (due : Result T Misread) → Answers misread_of answer due → Answers told result (in_input due) }
{
    match answer {
        Ok(value) => Ok(value),
        Err(Stop::Misread(misread)) => Err(ScriptFault::from(misread)),
        Err(Stop::Memory) => Err(ScriptFault::Memory),
    }
}

/// The forms of an input.
fn forms_of(alloc: Global, bytes: &[u8]) -> Result<Forms, ScriptFault>
    ensures { DueFor (λ forms. Ok forms) bytes.now result }
{
    if bytes.len() > MAX_BYTES {
        let bytes = bytes.len() as u64;
        return Err(ScriptFault::InputTooLong { bytes });
    }
    match read(alloc, bytes) {
        Ok(forms) => Ok(forms),
        Err(SexpFault::Memory) => Err(ScriptFault::Memory),
        Err(fault) => Err(ScriptFault::Text(fault)),
    }
}

fn script_of(alloc: Global, bytes: &[u8]) -> Result<Script, ScriptFault>
    ensures { DueFor script bytes.now result }
{
    match forms_of(alloc, bytes) {
        Ok(forms) => in_input(script(alloc, forms)),
        Err(fault) => Err(fault),
    }
}

fn transaction_of(alloc: Global, bytes: &[u8]) -> Result<Transaction, ScriptFault>
    ensures { DueFor (one_form transaction_at) bytes.now result }
{
    match forms_of(alloc, bytes) {
        Ok(forms) => in_input(one_transaction(alloc, forms)),
        Err(fault) => Err(fault),
    }
}

fn script_in(alloc: Global, forms: Forms) -> Result<Script, ScriptFault>
    ensures { Answers told result (in_input (script forms)) }
{
    in_input(script(alloc, forms))
}

/// The script that forms are, which are taken apart. Their places count from the front of the whole input.
///
/// # Errors
/// `Form` and `TooManyStatements`, the first in text order; `Memory`.
pub fn read_forms(alloc: Global, forms: Forms) -> Result<Script, ScriptFault>
    ensures read { Answers told result (in_input (script forms)) }
    ensures written { IfOk result (λ found. IsTrue (list_all is_transaction found)) }
{
    script_in(alloc, forms)
}

/// The script that an input is: any number of transactions.
///
/// # Errors
/// `InputTooLong` past 1,048,576 bytes, then `Text`, then the first in text order of `Form` and `TooManyStatements`; and
/// `Memory`.
pub fn read_script(alloc: Global, bytes: &[u8]) -> Result<Script, ScriptFault>
    ensures read { DueFor script bytes.now result }
    ensures written { IfOk result (λ found. IsTrue (list_all is_transaction found)) }
{
    script_of(alloc, bytes)
}

/// The query that an input is: one `for-each`.
///
/// # Errors
/// As those of `read_script`, without `TooManyStatements`. An input without a form is `Form` at 0, and a second form is
/// `Form` at its own place.
pub fn read_query(alloc: Global, bytes: &[u8]) -> Result<Query, ScriptFault>
    ensures { DueFor (one_form query_at) bytes.now result }
{
    match forms_of(alloc, bytes) {
        Ok(forms) => in_input(one_query(alloc, forms)),
        Err(fault) => Err(fault),
    }
}

/// The transaction that an input is.
///
/// # Errors
/// As those of `read_script`. An input without a form is `Form` at 0, and a second form is `Form` at its own place.
pub fn read_transaction(alloc: Global, bytes: &[u8]) -> Result<Transaction, ScriptFault>
    ensures read { DueFor (one_form transaction_at) bytes.now result }
    ensures written { IfOk result (λ found. IsTrue (is_transaction found)) }
{
    transaction_of(alloc, bytes)
}
