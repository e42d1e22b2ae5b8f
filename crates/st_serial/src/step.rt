//! A statement that is run over lists.
ghost use Rattle.std.specs.Prelude.{◌≡◌, ◌<◌, length, slice_get, Some, IfOk, IsTrue};
ghost use Rattle.std.specs.List.{list_all};
ghost use Rattle.st_query.specs.declared.statement.Statement.{Statement};
ghost use Rattle.st_query.specs.Written.{is_written};
ghost use Rattle.st_state.specs.Legal.{IsLegal};
ghost use Rattle.st_terms.specs.Checked.{present};
ghost use Rattle.st_meaning.specs.Runs.{runs_statement};
ghost use Rattle.st_serial.specs.Turns.{has_gone, IsStepped};

use st_lattice::Schema;
use st_plain::{BaseFault, Plain, Refusal};
use st_running::Running;
use st_values::Lines;
use std::alloc::{AllocError, Global};

/// What came of a statement.
#[derive(Drop)]
pub(crate) enum Stepped {
    /// It was run, and answered these lines.
    Went(Lines),
    /// It was refused.
    Refused(Refusal),
}

impl Stepped {
    /// Whether it was run.
    pub(crate) fn went(&self) -> bool
        ensures { result ≡ has_gone self.now }
    {
        match self {
            Stepped::Went(_) => true,
            Stepped::Refused(_) => false,
        }
    }
}

/// Runs the next statement of a transaction.
pub(crate) fn step(
    alloc: Global,
    schema: &Schema,
    running: &mut Running,
    plain: &mut Plain,
) -> Result<Stepped, AllocError>
    requires left { running.old.ran < length running.old.statements }
    requires schema { schema.now ≡ plain.old.state.schema }
    requires legal { IsLegal plain.old.state }
    requires written { IsTrue (list_all is_written running.old.statements) }
    ensures steps { (statement : Statement) → slice_get running.old.statements running.old.ran ≡ Some statement →
        IfOk result (IsStepped (runs_statement (present plain.old.state running.old.variables) statement) running.old running.new plain.new.state) }
    ensures statements { running.new.statements ≡ running.old.statements }
    ensures keeps { (plain.new.state.schema ≡ plain.old.state.schema) × (plain.new.mark ≡ plain.old.mark) }
{
    match running.step(alloc, schema, plain) {
        Ok(lines) => Ok(Stepped::Went(lines)),
        Err(BaseFault::Refused(refusal)) => Ok(Stepped::Refused(refusal)),
        Err(BaseFault::Page(_)) => unreachable!(),
        Err(BaseFault::Memory) => Err(AllocError),
    }
}
