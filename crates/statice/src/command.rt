ghost use Rattle.std.specs.Prelude.{◌≡◌, ◌≤◌, true, false, length, codes};
ghost use Rattle.st_edge.specs.States.{Takes};
ghost use Rattle.statice.specs.declared.status.Ended.{Ended};
ghost use Rattle.statice.specs.Found.{CanRun};
ghost use Rattle.statice.specs.Output.{fault_line, Prints};
ghost use Rattle.statice.specs.Status.{status_of};
ghost use Rattle.statice.specs.Try.{Answers, Tries};
ghost use Rattle.statice.specs.Words.{is_try};

use crate::input::{InputFault, MAX_INPUT, read_input};
use crate::program::{Found, program_of};
use crate::status::{BAD_WORDS, Ended, Status};
use crate::words::is_try;
use st_edge::{Disk, Failed, Sink, Source, write_all};
use st_lattice::Schema;
use st_query::Script;
use st_serial::{SerialFault, run_script};
use std::alloc::Global;

/// Writes the line of a fault if the sink takes it; a failure there changes nothing.
fn tell<K: Sink>(sink: &mut K, line: &[u8])
    ensures line { Takes (K.state sink.old) (K.state sink.new) line.now }
    ensures never_falls { (K.state sink.old).faults ≤ (K.state sink.new).faults }
{
    match write_all(sink, line) {
        Ok(()) => {}
        Err(Failed) => {}
    }
}

/// Runs a program.
fn run_program<K: Sink>(alloc: Global, schema: Schema, script: Script, sink: &mut K) -> Ended
    requires { CanRun schema script }
    ensures prints { Prints (schema, script) (K.state sink.old) (K.state sink.new) result }
    ensures never_falls { (K.state sink.old).faults ≤ (K.state sink.new).faults }
{
    match run_script(alloc, schema, script, sink) {
        Ok(true) => Ended::Done,
        Ok(false) => Ended::SomeRefused,
        Err(SerialFault::Sink) => Ended::SinkFailed,
        Err(SerialFault::Memory) => {
            tell(sink, b"fault memory\n");
            Ended::OutOfMemory
        }
    }
}

/// Runs the program that an input is, or tells its fault.
fn answer<K: Sink>(alloc: Global, input: &[u8], sink: &mut K) -> Ended
    requires { length input.now ≤ MAX_INPUT }
    ensures answers { Answers input.now (K.state sink.old) (K.state sink.new) result }
    ensures never_falls { (K.state sink.old).faults ≤ (K.state sink.new).faults }
{
    match program_of(alloc, input) {
        Ok(Found::Program(schema, script)) => run_program(alloc, schema, script, sink),
        Ok(Found::Faulty(line)) => {
            tell(sink, line.as_slice());
            Ended::Refused
        }
        Err(_) => {
            tell(sink, b"fault memory\n");
            Ended::OutOfMemory
        }
    }
}

/// Reads the input to its end, and answers it.
fn try_input<S: Source, K: Sink>(alloc: Global, source: &mut S, sink: &mut K) -> Ended
    ensures { Tries (S.state source.old) (S.state source.new) (K.state sink.old) (K.state sink.new) result }
{
    match read_input(alloc, source) {
        Ok(input) => answer(alloc, &input, sink),
        Err(InputFault::Source) => {
            tell(sink, b"fault source\n");
            Ended::SourceFailed
        }
        Err(InputFault::TooLong) => {
            tell(sink, b"fault input 1048577\n");
            Ended::TooLong
        }
        Err(InputFault::Memory) => {
            tell(sink, b"fault memory\n");
            Ended::OutOfMemory
        }
    }
}

/// Runs a command of the database: the words behind the path, over a disk, a source and a sink. The only command is
/// `try`, which reads a schema and any number of transactions, and prints what these print that run one after another over
/// an empty database. The disk comes back as it was handed in.
///
/// The status is `DONE` where all transactions have run, none was refused and their lines are written, and `SOME_REFUSED`
/// where some was refused; `BAD_WORDS` where the words are no command's, and then the source is as it was; `REFUSED` where
/// the input is no text forms, begins with no schema, or has a script that is misread; `SOURCE_FAILED`, `SINK_FAILED`;
/// `OUT_OF_MEMORY`; `TOO_LONG` where the input is longer than 1,048,576 bytes. All but `DONE`, `SOME_REFUSED` and
/// `SINK_FAILED` come with a line `fault ..` if the sink takes it. For an input that is no text forms it is
/// `fault text N PLACE`, its first fault's number and place in bytes; for one that begins with no schema
/// `fault schema N FIELDS`, its first fault's number and fields; for one whose script is misread `fault script N FIELD`, the
/// number of the first misfit and its place or its count.
pub fn statice<D: Disk, S: Source, K: Sink>(
    alloc: Global,
    words: &[String],
    disk: D,
    source: &mut S,
    sink: &mut K,
) -> (Status, D)
    // The disk is as it was.
    ensures disk { result.1 ≡ disk }

    // Other words than `try` alone: the source is as it was, and the sink took the line that tells so.
    ensures other_words { is_try words.now ≡ false → (result.0 ≡ BAD_WORDS) × (source.new ≡ source.old)
        × Takes (K.state sink.old) (K.state sink.new) (fault_line (codes "words")) }

    // `try`: the status tells how it ended.
    ensures tries { is_try words.now ≡ true → (ended : Ended) × (result.0 ≡ status_of ended)
        × Tries (S.state source.old) (S.state source.new) (K.state sink.old) (K.state sink.new) ended }
{
    if !is_try(words) {
        tell(sink, b"fault words\n");
        return (BAD_WORDS, disk);
    }
    (try_input(alloc, source, sink).status(), disk)
}
