//! Faults of pages, as bases answer them.
ghost use Rattle.std.specs.Prelude.{◌≡◌};
ghost use Rattle.st_edits.specs.Edits.{told};

use st_page::PageFault;
use st_plain::BaseFault;
use st_state::Refusal;

/// A fault of pages as a base answers it: two are refusals, and want of memory has a form of its own.
pub fn told(fault: PageFault) -> BaseFault
    ensures { result ≡ told fault }
{
    match fault {
        PageFault::TooManyPages { count } => BaseFault::Refused(Refusal::TooManyPages { count }),
        PageFault::Full { in_use } => BaseFault::Refused(Refusal::Full { in_use }),
        PageFault::Memory => BaseFault::Memory,
        other => BaseFault::Page(other),
    }
}
