//! A transaction that is run over lists, from its first statement to its end.
ghost use Rattle.std.specs.Prelude.{◌≡◌, ◌+◌, ◌<◌, ◌≤◌, ◌^◌, length, is_none, IfOk, OnOk, OnErr, IsTrue, IsErrOf};
ghost use Rattle.std.specs.List.{list_all};
ghost use Rattle.st_edge.specs.Faults.{Rose};
ghost use Rattle.st_edge.specs.States.{TakesAll, TakesFront};
ghost use Rattle.st_query.specs.Written.{is_written};
ghost use Rattle.st_state.specs.Legal.{IsLegal};
ghost use Rattle.st_meaning.specs.Runs.{runs};
ghost use Rattle.st_meaning.specs.Lines.{line, commit_tail, run_lines};

use crate::SerialFault;
use crate::fault::print;
use crate::turn::take_turn;
use st_edge::Sink;
use st_lattice::Schema;
use st_meaning::laws_of_states;
use st_output::{Turn, commit_line};
use st_plain::Plain;
use st_query::Transaction;
use st_running::Running;
use std::alloc::Global;

/// The client, which runs by itself.
pub(crate) const CLIENT: u8 = 1;

/// How a transaction ended.
#[derive(Clone, Copy)]
pub(crate) struct End {
    /// The turn behind its last one.
    pub(crate) turn: u128,
    /// It was committed, and not refused.
    pub(crate) committed: bool,
}

/// Writes the line of a commit, which is the transaction's last.
fn commit<K: Sink>(alloc: Global, turn: Turn, commit: u128, sink: &mut K) -> Result<(), SerialFault>
    ensures ok { OnOk result (TakesAll (K.state sink.old) (K.state sink.new) (line turn.number turn.client turn.transaction (commit_tail commit))) }
    ensures err { OnErr result (TakesFront (K.state sink.old) (K.state sink.new) (line turn.number turn.client turn.transaction (commit_tail commit))) }
    ensures sink { IsErrOf result SerialFault.Sink → Rose (K.state sink.old).faults (K.state sink.new).faults }
    ensures never_falls { (K.state sink.old).faults ≤ (K.state sink.new).faults }
{
    let text = commit_line(alloc, turn, commit)?;
    print(sink, text.as_slice())
}

/// Runs a transaction from a turn on, and writes its lines as they come. Where it is refused the state goes back.
pub(crate) fn run_transaction<K: Sink>(
    alloc: Global,
    schema: &Schema,
    plain: &mut Plain,
    transaction: Transaction,
    first: Turn,
    commits: u128,
    sink: &mut K,
) -> Result<End, SerialFault>
    requires schema { schema.now ≡ plain.old.state.schema }
    requires legal { IsLegal plain.old.state }
    requires written { IsTrue (list_all is_written transaction.statements) }
    requires room { first.number + 2 ^ 64 < 2 ^ 128 }
    requires countable { commits + 1 < 2 ^ 128 }
    ensures ok { OnOk result (TakesAll (K.state sink.old) (K.state sink.new) (run_lines first.number first.client first.transaction commits (runs plain.old.state transaction.statements))) }
    ensures err { OnErr result (TakesFront (K.state sink.old) (K.state sink.new) (run_lines first.number first.client first.transaction commits (runs plain.old.state transaction.statements))) }
    ensures schema { OnOk result (plain.new.state.schema ≡ plain.old.state.schema) }
    ensures state { OnOk result (plain.new.state ≡ (runs plain.old.state transaction.statements).state) }
    ensures ended { IfOk result (λ end. (end.committed ≡ is_none (runs plain.old.state transaction.statements).refused)
        × (end.turn ≡ first.number + length (runs plain.old.state transaction.statements).answers + 1) × (end.turn ≤ first.number + 2 ^ 64)) }
    ensures sink { IsErrOf result SerialFault.Sink → Rose (K.state sink.old).faults (K.state sink.new).faults }
    ensures never_falls { (K.state sink.old).faults ≤ (K.state sink.new).faults }
{
    laws_of_states();
    plain.set_mark();
    let mut running = Running::begin(alloc, transaction);
    let mut turn = first;
    for _ in 0..running.left() {
        let went = take_turn(alloc, schema, &mut running, plain, turn, commits, sink)?;
        turn.number += 1;
        if !went {
            plain.roll_back();
            return Ok(End {
                turn: turn.number,
                committed: false,
            });
        }
    }
    commit(alloc, turn, commits + 1, sink)?;
    Ok(End {
        turn: turn.number + 1,
        committed: true,
    })
}
