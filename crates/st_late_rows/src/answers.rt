//! Answers as they are printed.

use st_plain::{BaseFault, PageFault, Refusal};
use st_values::{Value, print_value};
use std::alloc::{AllocError, Global};

/// A value, `none` where the entity isn't live, or why there is no answer.
pub fn answer(
    alloc: Global,
    answer: &Result<Option<Value>, BaseFault>,
) -> Result<String, AllocError> {
    match answer {
        Ok(Some(value)) => Ok(print_value(alloc, value, &[])?.into_string()),
        Ok(None) => String::from_str(alloc, "none"),
        Err(fault) => fault_text(alloc, fault),
    }
}

/// A fault of pages or the rule that refuses, by its number, with its fields.
fn fault_text(alloc: Global, fault: &BaseFault) -> Result<String, AllocError> {
    match fault {
        BaseFault::Page(PageFault::Conflict { page, holder }) => {
            format!(in alloc; "fault 2 {page} {holder}")
        }
        BaseFault::Page(PageFault::DiskFault) => String::from_str(alloc, "fault 5"),
        BaseFault::Refused(Refusal::Full { in_use }) => format!(in alloc; "refused 13 {in_use}"),
        _ => String::from_str(alloc, "another fault"),
    }
}
