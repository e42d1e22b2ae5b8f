ghost use Rattle.std.specs.Prelude.{◌≡◌, ◌<◌, ◌≤◌, ◌+◌, ◌++◌, ℕ, List, length, vec_len, MatchBool, IfOk, OnOk, IfSome, IsErrOf};
ghost use Rattle.std.specs.Io.KnownBytes.{Consumes, IsAtEnd};
ghost use Rattle.st_edge.specs.Faults.{Rose};
ghost use Rattle.statice.specs.declared.input.InputFault.TheVariants.{Memory};

use st_edge::Source;
use std::alloc::{AllocError, AllocFailed, Global};

/// How many bytes an input has at most.
pub const MAX_INPUT: usize = 1_048_576;

/// How many bytes are read at a time.
const BLOCK: usize = 4096;

/// Why an input was not read to its end.
#[derive(Clone, Copy, Debug, PartialEq, Eq)]
pub enum InputFault {
    /// The source failed.
    Source,
    /// More bytes came than an input may have.
    TooLong,
    Memory,
}

impl From<AllocError> for InputFault {
    ghost from_gives = { λ _ e. e ≡ Memory };

    fn from(_: AllocError) -> InputFault {
        InputFault::Memory
    }
}

impl<T: Drop> From<AllocFailed<T>> for InputFault {
    ghost from_gives = { λ _ e. e ≡ Memory };

    fn from(_: AllocFailed<T>) -> InputFault {
        InputFault::Memory
    }
}

/// Reads one block more: whether the source is at its end.
fn read_block<S: Source>(source: &mut S, bytes: &mut Vec<u8>) -> Result<bool, InputFault>
    requires { vec_len bytes.old ≤ MAX_INPUT }
    ensures taken { (more : List ℕ) × (bytes.new.items ≡ bytes.old.items ++ more) × Consumes (S.state source.old).left (S.state source.new).left more }
    ensures size { vec_len bytes.new ≤ MAX_INPUT + 1 }
    ensures end { IfOk result (λ end. MatchBool end (IsAtEnd (S.state source.old).left × (bytes.new.items ≡ bytes.old.items)) (vec_len bytes.old < vec_len bytes.new)) }
    ensures source { IsErrOf result InputFault.Source → Rose (S.state source.old).faults (S.state source.new).faults }
    ensures never_long { IsErrOf result InputFault.TooLong → ⊥ }
    ensures never_falls { (S.state source.old).faults ≤ (S.state source.new).faults }
{
    let mut block = [0u8; BLOCK];
    let room = MAX_INPUT + 1 - bytes.len();
    let size = room.min(BLOCK);
    bytes.reserve(BLOCK)?;
    match source.read(&mut block[..size]) {
        Ok(count) => {
            bytes.extend_from_slice(&block[..count])?;
            if count == 0 { Ok(true) } else { Ok(false) }
        }
        Err(_) => Err(InputFault::Source),
    }
}

/// Reads a source to its end, at most one byte more than an input may have.
pub fn read_input<S: Source>(alloc: Global, source: &mut S) -> Result<Vec<u8>, InputFault>
    ensures size { IfOk result (λ bytes. vec_len bytes ≤ MAX_INPUT) }
    ensures bytes { IfOk result (λ bytes. IfSome (S.state source.old).left (λ input. bytes.items ≡ input)) }
    ensures too_long { IsErrOf result InputFault.TooLong → IfSome (S.state source.old).left (λ input. MAX_INPUT < length input) }
    ensures source { IsErrOf result InputFault.Source → Rose (S.state source.old).faults (S.state source.new).faults }
    ensures reads { (read : List ℕ) × (length read ≤ MAX_INPUT + 1) × Consumes (S.state source.old).left (S.state source.new).left read }
    ensures never_falls { (S.state source.old).faults ≤ (S.state source.new).faults }
{
    let mut bytes = Vec::new(alloc);
    while bytes.len() <= MAX_INPUT {
        if read_block(source, &mut bytes)? {
            return Ok(bytes);
        }
    }
    Err(InputFault::TooLong)
}
