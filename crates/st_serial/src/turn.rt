//! A turn of the client: one statement, and its lines.
ghost use Rattle.std.specs.Prelude.{◌≡◌, ◌<◌, ◌≤◌, length, slice_get, Some, IfOk, OnOk, OnErr, IsTrue, IsErrOf};
ghost use Rattle.std.specs.List.{list_all};
ghost use Rattle.st_edge.specs.Faults.{Rose};
ghost use Rattle.st_edge.specs.States.{TakesAll, TakesFront};
ghost use Rattle.st_query.specs.declared.statement.Statement.{Statement};
ghost use Rattle.st_query.specs.Written.{is_written};
ghost use Rattle.st_state.specs.Legal.{IsLegal};
ghost use Rattle.st_terms.specs.Checked.{present};
ghost use Rattle.st_meaning.specs.Runs.{runs_statement};
ghost use Rattle.st_serial.specs.Turns.{IsTurned, turn_lines, stepped_lines};

use crate::fault::print;
use crate::step::step;
use crate::{SerialFault, Stepped};
use st_edge::Sink;
use st_lattice::Schema;
use st_output::{Turn, answer_lines, refused_line};
use st_plain::Plain;
use st_running::Running;
use st_values::Letters;
use std::alloc::{AllocError, Global};

/// The lines of what came of a statement, behind so many commits.
fn lines_of(
    alloc: Global,
    schema: &Schema,
    turn: Turn,
    commits: u128,
    stepped: Stepped,
) -> Result<Letters, AllocError>
    ensures { IfOk result (λ text. text ≡ stepped_lines turn schema.now.names commits stepped) }
{
    match stepped {
        Stepped::Went(lines) => answer_lines(alloc, turn, lines.as_slice()),
        Stepped::Refused(refusal) => {
            refused_line(alloc, turn, schema.type_names(), commits, &refusal)
        }
    }
}

/// Runs the next statement of a transaction in its turn, and writes its lines: whether it was run, and not refused.
pub(crate) fn take_turn<K: Sink>(
    alloc: Global,
    schema: &Schema,
    running: &mut Running,
    plain: &mut Plain,
    turn: Turn,
    commits: u128,
    sink: &mut K,
) -> Result<bool, SerialFault>
    requires left { running.old.ran < length running.old.statements }
    requires schema { schema.now ≡ plain.old.state.schema }
    requires legal { IsLegal plain.old.state }
    requires written { IsTrue (list_all is_written running.old.statements) }
    ensures turned { (statement : Statement) → slice_get running.old.statements running.old.ran ≡ Some statement →
        IfOk result (IsTurned (runs_statement (present plain.old.state running.old.variables) statement) running.old running.new plain.new.state) }
    ensures ok { (statement : Statement) → slice_get running.old.statements running.old.ran ≡ Some statement →
        OnOk result (TakesAll (K.state sink.old) (K.state sink.new)
        (turn_lines turn schema.now.names commits (runs_statement (present plain.old.state running.old.variables) statement))) }
    ensures err { (statement : Statement) → slice_get running.old.statements running.old.ran ≡ Some statement →
        OnErr result (TakesFront (K.state sink.old) (K.state sink.new)
        (turn_lines turn schema.now.names commits (runs_statement (present plain.old.state running.old.variables) statement))) }
    ensures statements { running.new.statements ≡ running.old.statements }
    ensures keeps { (plain.new.state.schema ≡ plain.old.state.schema) × (plain.new.mark ≡ plain.old.mark) }
    ensures sink { IsErrOf result SerialFault.Sink → Rose (K.state sink.old).faults (K.state sink.new).faults }
    ensures never_falls { (K.state sink.old).faults ≤ (K.state sink.new).faults }
{
    let stepped = step(alloc, schema, running, plain)?;
    let went = stepped.went();
    let text = lines_of(alloc, schema, turn, commits, stepped)?;
    print(sink, text.as_slice())?;
    Ok(went)
}
