//! Answers of look-ups, as bases answer.
ghost use Rattle.std.specs.Prelude.{◌≡◌};
ghost use Rattle.st_paged.specs.Answers.{told_answer};

use st_edits::told;
use st_page::PageFault;
use st_plain::BaseFault;

/// An answer whose fault is one of pages, as a base answers it.
pub(crate) fn as_base<T: Drop>(answer: Result<T, PageFault>) -> Result<T, BaseFault>
    ensures { result ≡ told_answer answer }
{
    match answer {
        Ok(value) => Ok(value),
        Err(fault) => Err(told(fault)),
    }
}
