//! The transactions of a script, one after another.
ghost use Rattle.std.specs.Prelude.{◌≡◌, ◌≤◌, IfOk, OnOk, OnErr, IsTrue, IsErrOf};
ghost use Rattle.st_edge.specs.Faults.{Rose};
ghost use Rattle.st_edge.specs.States.{TakesAll, TakesFront};
ghost use Rattle.st_state.specs.Legal.{IsLegal};
ghost use Rattle.st_state.specs.State.{empty_state};
ghost use Rattle.st_plain.specs.Held.{marked};
ghost use Rattle.st_meaning.specs.Runs.{is_serial_run};
ghost use Rattle.st_meaning.specs.Lines.{client_lines};
ghost use Rattle.st_serial.specs.Serial.{statements_of, are_written, state_behind};

use crate::SerialFault;
use crate::transaction::{CLIENT, run_transaction};
use st_edge::Sink;
use st_lattice::Schema;
use st_meaning::laws_of_states;
use st_output::Turn;
use st_plain::Plain;
use st_query::Script;
use st_sexp::Ahead;
use st_text::Duplicate;
use std::alloc::{AllocError, Global};

/// Runs the transactions of a script one after another over a database with this schema, and writes their lines as they come,
/// those of client 1 from the first turn on: `client_lines`. A refused transaction leaves the state as it was. Answers whether
/// none was refused.
///
/// # Errors
/// `Sink` where the sink failed, `Memory`; the sink then has a front of the lines.
pub fn run_over<K: Sink>(
    alloc: Global,
    schema: &Schema,
    plain: &mut Plain,
    script: Script,
    sink: &mut K,
) -> Result<bool, SerialFault>
    requires schema { schema.now ≡ plain.old.state.schema }
    requires legal { IsLegal plain.old.state }
    requires written { IsTrue (are_written script) }
    ensures ok { OnOk result (TakesAll (K.state sink.old) (K.state sink.new) (client_lines plain.old.state (statements_of script))) }
    ensures err { OnErr result (TakesFront (K.state sink.old) (K.state sink.new) (client_lines plain.old.state (statements_of script))) }
    ensures state { OnOk result (plain.new.state ≡ state_behind plain.old.state (statements_of script)) }
    ensures served { IfOk result (λ served. served ≡ is_serial_run plain.old.state (statements_of script)) }
    ensures sink { IsErrOf result SerialFault.Sink → Rose (K.state sink.old).faults (K.state sink.new).faults }
    ensures never_falls { (K.state sink.old).faults ≤ (K.state sink.new).faults }
{
    laws_of_states();
    let mut ahead = Ahead::new(alloc, script)?;
    let mut turn = Turn {
        number: 1,
        client: CLIENT,
        transaction: 1,
    };
    let mut commits = 0u128;
    let mut served = true;
    while let Some(transaction) = ahead.next() {
        let end = run_transaction(alloc, schema, plain, transaction, turn, commits, sink)?;
        turn.number = end.turn;
        turn.transaction += 1;
        if end.committed {
            commits += 1;
        } else {
            served = false;
        }
    }
    Ok(served)
}

/// An empty database with this schema.
fn empty(alloc: Global, schema: &Schema) -> Result<Plain, AllocError>
    ensures { IfOk result (λ plain. plain ≡ marked (empty_state schema.now)) }
{
    let schema = schema.copy(alloc)?;
    Plain::new(alloc, schema)
}

/// Runs the transactions of a script as `run_over` does, over an empty database.
///
/// # Errors
/// As those of `run_over`.
pub fn run_script<K: Sink>(
    alloc: Global,
    schema: Schema,
    script: Script,
    sink: &mut K,
) -> Result<bool, SerialFault>
    requires legal { IsLegal (empty_state schema) }
    requires written { IsTrue (are_written script) }
    ensures ok { OnOk result (TakesAll (K.state sink.old) (K.state sink.new) (client_lines (empty_state schema) (statements_of script))) }
    ensures err { OnErr result (TakesFront (K.state sink.old) (K.state sink.new) (client_lines (empty_state schema) (statements_of script))) }
    ensures served { IfOk result (λ served. served ≡ is_serial_run (empty_state schema) (statements_of script)) }
    ensures sink { IsErrOf result SerialFault.Sink → Rose (K.state sink.old).faults (K.state sink.new).faults }
    ensures never_falls { (K.state sink.old).faults ≤ (K.state sink.new).faults }
{
    let mut plain = empty(alloc, &schema)?;
    run_over(alloc, &schema, &mut plain, script, sink)
}
