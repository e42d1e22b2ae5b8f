//! Pages in memory.
ghost use Rattle.st_memory_pages.specs.Tried.{TellsStop, tried_memory};

use crate::attempted::Attempted;
use crate::tally::Tally;
use st_image::Page;
use std::alloc::{AllocError, Global};

/// Pages in memory, but that the answers of calls aren't counted yet.
#[derive(Drop)]
pub struct Tried {
    pub(crate) held: Attempted,
    pub(crate) tally: Tally,
}

/// A plain array of pages, as one attempt at a transaction sees and changes it, held in memory.
#[derive(Drop)]
pub struct MemoryPages {
    pub(crate) tried: Tried,
    ghost stopped: { TellsStop (tried_memory tried) },
}

impl MemoryPages {
    ghost use Rattle.std.specs.Prelude.{◌≡◌, ◌≤◌, None, IfOk, vec_len};
    ghost use Rattle.st_pages.specs.Attempt.{fresh_attempt};
    ghost use Rattle.st_memory_pages.specs.Slots.{array_of};
    ghost use Rattle.st_memory_pages.specs.Attempted.{first_room};
    ghost use Rattle.st_memory_pages.specs.Memory.{memory_of, calls_of, failing_of};

    /// The array of some images, at most 65,536, and of blank pages behind them. Calls of `get`, `put` and `fresh` are
    /// counted from 1, and those of the numbers in `failing` are to fail. All memory but that of images that are put is
    /// taken here.
    ///
    /// # Errors
    /// `AllocError` where memory wants.
    pub fn new(
        alloc: Global,
        images: Vec<Page>,
        failing: Vec<u64>,
    ) -> Result<MemoryPages, AllocError>
        requires { vec_len images ≤ 65536 }
        ensures array { IfOk result (λ pages. (memory_of pages).array ≡ array_of images.items) }
        ensures attempt { IfOk result (λ pages. (memory_of pages).attempt ≡ fresh_attempt) }
        ensures counts { IfOk result (λ pages. (memory_of pages).counts ≡ record { gets = 0; conflicts = 0; faults = 0 }) }
        ensures met { IfOk result (λ pages. (memory_of pages).met ≡ record { count = 0; last = None }) }
        ensures room { IfOk result (λ pages. (memory_of pages).room ≡ first_room (array_of images.items)) }
        ensures calls { IfOk result (λ pages. calls_of pages ≡ 0) }
        ensures failing { IfOk result (λ pages. failing_of pages ≡ failing.items) }
    {
        let held = Attempted::new(alloc, images)?;
        Ok(MemoryPages {
            tried: Tried {
                held,
                tally: Tally::new(failing),
            },
        })
    }

    /// How many calls of `get` were made.
    pub fn gets(&self) -> u64
        ensures { result ≡ (memory_of self.now).counts.gets }
    {
        self.tried.tally.gets()
    }
}
