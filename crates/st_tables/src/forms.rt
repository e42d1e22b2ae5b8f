//! Text forms: what a text is read as.

use st_cases::Case;
use st_sexp::{Form, Forms, SexpFault, Shape, read};
use st_text::Duplicate;
use st_values::{Value, print_value};
use std::alloc::{AllocError, Global};
use std::fmt::Write;

/// The forms of a text; it has a fault of memory where it is longer than texts may be.
pub fn forms_of(alloc: Global, text: &[u8]) -> Result<Forms, SexpFault> {
    if text.len() > 1048576 {
        return Err(SexpFault::Memory);
    }
    read(alloc, text)
}

/// The forms that a text spells, by way of their copies, or its fault in words.
pub fn read_as(alloc: Global, case: &Case) -> Result<String, AllocError> {
    let mut out = String::new(alloc);
    match forms_of(alloc, &case.whole(alloc)?) {
        Ok(forms) => push_forms(alloc, forms.copy(alloc)?.as_slice(), true, &mut out)?,
        Err(fault) => write!(out, " {fault}")?,
    }
    Ok(out)
}

/// Adds forms with a blank before each, the first one too where that is asked.
#[cycle(push)]
fn push_forms(
    alloc: Global,
    forms: &[Form],
    is_behind: bool,
    out: &mut String,
) -> Result<(), AllocError> {
    let mut is_behind = is_behind;
    for form in forms {
        if is_behind {
            out.push(' ')?;
        }
        push_form(alloc, form, out)?;
        is_behind = true;
    }
    Ok(())
}

/// Adds a form with its places, as `(a:1-2):0-3`.
#[cycle(push)]
fn push_form(alloc: Global, form: &Form, out: &mut String) -> Result<(), AllocError> {
    match &form.shape {
        Shape::Name(name) => out.push_str(name.as_str())?,
        Shape::Number(number) => write!(out, "{number}")?,
        Shape::Quoted(text) => {
            let value = Value::Text(text.copy(alloc)?);
            out.push_str(print_value(alloc, &value, &[])?.as_str())?;
        }
        Shape::List(forms) => {
            out.push_str("(")?;
            push_forms(alloc, forms.as_slice(), false, out)?;
            out.push_str(")")?;
        }
    }
    let from = form.from;
    let to = form.to;
    write!(out, ":{from}-{to}")
}
