ghost use Rattle.std.specs.Prelude.{◌≡◌, ◌≤◌, ℕ, List, length, Ok, IfOk};
ghost use Rattle.st_state.specs.Legal.{IsLegal};
ghost use Rattle.st_state.specs.State.{empty_state};
ghost use Rattle.statice.specs.declared.program.Found.TheVariants.{Faulty};
ghost use Rattle.statice.specs.Form.{program_in, program_over};
ghost use Rattle.statice.specs.Found.{IsFound, IsFoundAs};

use crate::fault::{schema_fault_line, script_fault_line, text_fault_line};
use crate::input::MAX_INPUT;
use crate::laws::laws_of_databases;
use st_lattice::Schema;
use st_query::Script;
use st_reader::{read_forms, split};
use st_schema::read_schema;
use st_sexp::{Forms, read};
use st_text::Letters;
use std::alloc::{AllocError, Global};

/// What an input is.
#[derive(Drop)]
pub enum Found {
    /// A program: its schema and its transactions.
    Program(Schema, Script),
    /// No program: the line that tells its fault.
    Faulty(Letters),
}

/// No program, where its line could be had.
fn faulty(line: Result<Letters, AllocError>) -> Result<Found, AllocError>
    ensures { IfOk result (λ found. (text : List ℕ) × (line ≡ Ok text) × (found ≡ Faulty text)) }
{
    match line {
        Ok(line) => Ok(Found::Faulty(line)),
        Err(AllocError) => Err(AllocError),
    }
}

/// What a schema and the forms of a script are.
fn found_behind(alloc: Global, schema: Schema, script: Forms) -> Result<Found, AllocError>
    requires { IsLegal (empty_state schema) }
    ensures { IfOk result (IsFoundAs (program_over schema script)) }
{
    match read_forms(alloc, script) {
        Ok(script) => Ok(Found::Program(schema, script)),
        Err(fault) => faulty(script_fault_line(alloc, fault)),
    }
}

/// What forms are.
fn found_in(alloc: Global, forms: Forms) -> Result<Found, AllocError>
    ensures { IfOk result (IsFoundAs (program_in forms)) }
{
    let (schema, script) = split(alloc, forms)?;
    laws_of_databases();
    match read_schema(alloc, schema.as_slice()) {
        Ok(schema) => found_behind(alloc, schema, script),
        Err(fault) => faulty(schema_fault_line(alloc, fault)),
    }
}

/// What an input is.
pub fn program_of(alloc: Global, input: &[u8]) -> Result<Found, AllocError>
    requires { length input.now ≤ MAX_INPUT }
    ensures { IfOk result (IsFound input.now) }
{
    match read(alloc, input) {
        Ok(forms) => found_in(alloc, forms),
        Err(fault) => faulty(text_fault_line(alloc, fault)),
    }
}
