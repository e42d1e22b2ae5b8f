//! A statement that is run.
ghost use Rattle.std.specs.Prelude.{◌≡◌, IsTrue};
ghost use Rattle.st_query.specs.Written.{is_written};
ghost use Rattle.st_state.specs.State.{State};
ghost use Rattle.st_state.specs.Legal.{IsLegal};
ghost use Rattle.st_terms.specs.Looks.{Keeps};
ghost use Rattle.st_terms.specs.Checked.{present, IsChecked};
ghost use Rattle.st_running.specs.Steps.{Steps, IsOutcome};

use crate::Outcome;
use crate::arms::{
    run_add, run_delete, run_ensure, run_find, run_for_each, run_let, run_make, run_print, run_set,
    run_take,
};
use crate::check::checks_refused;
use st_lattice::Schema;
use st_plain::{BaseFault, Refusal};
use st_query::{Statement, Variable};
use st_select::Engine;
use std::alloc::Global;

/// A statement that passed the checks.
fn run_checked<E: Engine>(
    engine: &mut E,
    alloc: Global,
    schema: &Schema,
    variables: &[Variable],
    statement: &Statement,
) -> Result<Outcome, BaseFault>
    requires { schema.now ≡ E.schema engine.old }
    ensures steps { (w : E.Witness) (s : State) → E.agrees engine.new w → E.stands engine.old w s → IsChecked (present s variables.now) statement.now →
        Steps (present s variables.now) statement.now (E.stands engine.new w) (E.asks engine.old engine.new w) (E.reached engine.new w) (IsOutcome (present s variables.now) statement.now) result }
    ensures keeps { Keeps (E.follows engine.old engine.new) (E.met engine.old) (E.met engine.new) result }
{
    match statement {
        Statement::Make { var: _, ty, cells } => {
            run_make(
                engine,
                alloc,
                schema,
                variables,
                ty.as_slice(),
                cells.as_slice(),
            )
        }
        Statement::Set {
            attribute,
            target,
            value,
        } => run_set(engine, alloc, schema, variables, attribute, target, value),
        Statement::Add {
            attribute,
            target,
            value,
        } => run_add(engine, alloc, schema, variables, attribute, target, value),
        Statement::Take {
            attribute,
            target,
            value,
        } => run_take(engine, alloc, schema, variables, attribute, target, value),
        Statement::Delete { target } => run_delete(engine, alloc, schema, variables, target),
        Statement::Find {
            var: _,
            ty,
            key,
            value,
        } => run_find(
            engine,
            alloc,
            schema,
            variables,
            ty.as_slice(),
            key.as_slice(),
            value,
        ),
        Statement::Ensure { var: _, ty, cells } => {
            run_ensure(
                engine,
                alloc,
                schema,
                variables,
                ty.as_slice(),
                cells.as_slice(),
            )
        }
        Statement::Let { var: _, value } => run_let(engine, alloc, schema, variables, value),
        Statement::Print { terms } => {
            run_print(engine, alloc, schema, variables, terms.as_slice())
        }
        Statement::ForEach { query } => run_for_each(engine, alloc, schema, variables, query),
        Statement::Abort => Err(BaseFault::Refused(Refusal::Aborted)),
    }
}

/// Runs a statement: what it answers, and the value that it binds its variable to. The rules are asked in their order, and
/// all of them before anything is changed.
pub(crate) fn run<E: Engine>(
    engine: &mut E,
    alloc: Global,
    schema: &Schema,
    variables: &[Variable],
    statement: &Statement,
) -> Result<Outcome, BaseFault>
    requires { schema.now ≡ E.schema engine.old }
    ensures steps { (w : E.Witness) (s : State) → E.agrees engine.new w → E.stands engine.old w s → IsLegal s → IsTrue (is_written statement.now) →
        Steps (present s variables.now) statement.now (E.stands engine.new w) (E.asks engine.old engine.new w) (E.reached engine.new w) (IsOutcome (present s variables.now) statement.now) result }
    ensures keeps { Keeps (E.follows engine.old engine.new) (E.met engine.old) (E.met engine.new) result }
{
    match checks_refused(engine, alloc, schema, variables, statement)? {
        Some(refusal) => Err(BaseFault::Refused(refusal)),
        None => run_checked(engine, alloc, schema, variables, statement),
    }
}
