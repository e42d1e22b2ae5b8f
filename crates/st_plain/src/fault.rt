ghost use Rattle.std.specs.Prelude.{◌≡◌, IfOk};
ghost use Rattle.st_plain.specs.declared.fault.BaseFault.TheVariants.{Memory};

use st_page::PageFault;
use st_state::Refusal;
use st_text::Duplicate;
use std::alloc::{AllocError, AllocFailed, Global};
use thiserror::Error;

/// Why a call of a base did not do what was asked.
#[derive(Debug, Drop, Error)]
pub enum BaseFault {
    /// A rule refuses it. The state is what it was, but where pages refuse: then the attempt can only be given up.
    #[error("refused")]
    Refused(Refusal),
    /// A call on pages failed, or a page is damaged. The attempt can only be given up.
    #[error("{0}")]
    Page(PageFault),
    /// No memory.
    #[error("out of memory")]
    Memory,
}

impl From<AllocError> for BaseFault {
    ghost from_gives = { λ _ e. e ≡ Memory };

    fn from(_: AllocError) -> BaseFault {
        BaseFault::Memory
    }
}

impl<T: Drop> From<AllocFailed<T>> for BaseFault {
    ghost from_gives = { λ _ e. e ≡ Memory };

    fn from(_: AllocFailed<T>) -> BaseFault {
        BaseFault::Memory
    }
}

impl Duplicate for BaseFault {
    fn copy(&self, alloc: Global) -> Result<BaseFault, AllocError> {
        match self {
            BaseFault::Refused(refusal) => Ok(BaseFault::Refused(refusal.copy(alloc)?)),
            BaseFault::Page(fault) => Ok(BaseFault::Page(*fault)),
            BaseFault::Memory => Ok(BaseFault::Memory),
        }
    }
}
