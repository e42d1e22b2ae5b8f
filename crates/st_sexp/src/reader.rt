//! The forms that a text spells.
ghost use Rattle.std.specs.Prelude.{◌≤◌, length};
ghost use Rattle.st_sexp.specs.Reading.{Due};

use crate::nest::Nest;
use crate::{Forms, SexpFault};
use st_token::next;
use std::alloc::Global;
use std::str;

/// The forms that a text spells, or the first fault in it.
///
/// Refusals, each exactly where it is due and with its place: `NotUtf8`, tested first over the whole text; then the
/// first in byte order of `Stray`, `BadNumber`, `TooDeep` and, at the end of the text alone, `Unclosed`. `Memory`
/// may come at any text.
pub fn read(alloc: Global, bytes: &[u8]) -> Result<Forms, SexpFault>
    requires { length bytes.now ≤ 1048576 }
    ensures { Due bytes.now result }
{
    if let Err(error) = str::from_utf8(bytes) {
        let place = error.valid_up_to() as u32;
        return Err(SexpFault::NotUtf8 { place });
    }
    let mut nest = Nest::new(alloc);
    let mut at = 0;
    while let Some(token) = next(alloc, bytes, at)? {
        at = token.to as usize;
        nest.put(alloc, token)?;
    }
    nest.finish()
}
