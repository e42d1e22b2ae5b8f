//! The items of lists, taken one after another.
ghost use Rattle.std.specs.Prelude.{◌≡◌};
ghost use Rattle.std.specs.Option.{ok_or};
ghost use Rattle.st_text.specs.Answer.{Answers};
ghost use Rattle.st_sexp.specs.Items.{identifier, name_at, forms_at, next_at, end_of, behind};
ghost use Rattle.st_statements.specs.declared.fault.Misread.TheVariants as misread;
ghost use Rattle.st_statements.specs.declared.fault.Stop.TheVariants as stop;
ghost use Rattle.st_statements.specs.Faults.{misread_of};
ghost use Rattle.st_statements.specs.Reading.{some_at, two_names};

use crate::Misread;
use crate::fault::Stop;
use st_sexp::{Ahead, Form, into_behind, into_list, into_name, is_name};
use st_text::Letters;
use std::alloc::Global;

/// What stands at a place does not fit.
pub fn misfit(place: u32) -> Stop
    ensures { result ≡ stop.Misread (misread.Form place) }
{
    Stop::Misread(Misread::Form { place })
}

/// The letters of a name of a type, an attribute or a variable.
fn identifier(form: Form) -> Option<Letters>
    ensures { result ≡ identifier form }
{
    let word = into_name(form)?;
    if is_name(word.as_slice()) {
        Some(word)
    } else {
        None
    }
}

/// The letters of a form that has to be such a name.
pub(crate) fn name_at(form: Form) -> Result<Letters, Stop>
    ensures { Answers misread_of result (name_at misread.Form form) }
{
    let place = form.from;
    match identifier(form) {
        Some(name) => Ok(name),
        None => Err(misfit(place)),
    }
}

/// The forms of a form that has to be a list.
pub(crate) fn forms_at(alloc: Global, form: Form) -> Result<Ahead<Form>, Stop>
    ensures { Answers misread_of result (forms_at misread.Form form) }
{
    let place = form.from;
    match into_list(form) {
        Ok(forms) => Ok(Ahead::new(alloc, forms)?),
        Err(_) => Err(misfit(place)),
    }
}

/// The next form of a list that begins at `place`, and those behind it.
pub fn next_at(place: u32, parts: Ahead<Form>) -> Result<(Form, Ahead<Form>), Stop>
    ensures { Answers misread_of result (next_at misread.Form place parts) }
{
    let mut parts = parts;
    match parts.next() {
        Some(form) => Ok((form, parts)),
        None => Err(misfit(place)),
    }
}

/// A value, where the list that it was read of ends here.
pub fn end_of<T: Drop>(parts: Ahead<Form>, value: T) -> Result<T, Stop>
    ensures { Answers misread_of result (end_of misread.Form parts value) }
{
    let mut parts = parts;
    match parts.next() {
        None => Ok(value),
        Some(form) => Err(misfit(form.from)),
    }
}

/// A value, where no form is too much.
pub(crate) fn end_of_forms<T: Drop>(forms: &[Form], value: T) -> Result<T, Stop>
    ensures { Answers misread_of result (end_of misread.Form forms.now value) }
{
    match forms {
        [] => Ok(value),
        [form, ..] => Err(misfit(form.from)),
    }
}

/// The forms of a list that begins at `place`, where there is one at least.
pub(crate) fn some_at(place: u32, parts: Ahead<Form>) -> Result<Ahead<Form>, Stop>
    ensures { Answers misread_of result (some_at place parts) }
{
    if parts.is_empty() {
        Err(misfit(place))
    } else {
        Ok(parts)
    }
}

/// The two names in front of a list's forms, a variable's and a type's, and what stands behind them.
pub(crate) fn two_names(
    place: u32,
    parts: Ahead<Form>,
) -> Result<(Letters, Letters, Ahead<Form>), Stop>
    ensures { Answers misread_of result (two_names place parts) }
{
    let (var, parts) = next_at(place, parts)?;
    let var = name_at(var)?;
    let (ty, parts) = next_at(place, parts)?;
    let ty = name_at(ty)?;
    Ok((var, ty, parts))
}

/// The forms behind the head of a form that has to be a list with this head.
pub(crate) fn behind_at(alloc: Global, word: &[u8], form: Form) -> Result<Ahead<Form>, Stop>
    ensures { Answers misread_of result (ok_or (behind word.now form) (misread.Form form.from)) }
{
    let place = form.from;
    match into_behind(word, form) {
        Ok(forms) => Ok(Ahead::new(alloc, forms)?),
        Err(_) => Err(misfit(place)),
    }
}
