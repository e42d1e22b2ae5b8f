//! Reading the items of lists, one after another: what a reader of forms needs beside the forms themselves.
//!
//! The first form in text order that does not fit is the reader's fault, with its place: a form that is too much misfits by
//! itself, and where one is missing its list does. The fault is of the reader's own type, by the trait `Misfit`.
ghost use Rattle.std.specs.Prelude.{◌≡◌, ℕ};
ghost use Rattle.std.specs.Option.{option_copied, option_map};
ghost use Rattle.std.specs.Result.{result_map_both};
ghost use Rattle.st_sexp.specs.Items.{identifier, behind, name_at, forms_at, next_at, end_of};

use crate::Form;
use crate::names::is_name;
use crate::view::{as_front, as_list, as_name, is_word};
use st_text::Letters;

/// A reader's faults, of which one tells that a form does not fit.
pub trait Misfit: Sized {
    ghost misfit: { ℕ → Self };

    /// The fault of what stands at a place, in bytes from the front of the text.
    fn misfit(place: u32) -> Self
        ensures { result ≡ misfit place };
}

/// The letters of a form that is a name of a schema, a type, an attribute or a variable, as `is_name` says.
pub fn identifier(form: &Form) -> Option<&Letters>
    ensures { option_copied result ≡ identifier form.now }
{
    let word = as_name(form)?;
    if is_name(word.as_slice()) {
        Some(word)
    } else {
        None
    }
}

/// The forms behind the head of a list, where this word is its head.
pub fn behind<'a>(word: &[u8], form: &'a Form) -> Option<&'a [Form]>
    ensures { option_map (λ forms. forms.now) result ≡ behind word.now form.now }
{
    let forms = as_list(form)?;
    let (head, rest) = as_front(forms)?;
    if is_word(head, word) {
        Some(rest)
    } else {
        None
    }
}

/// The letters of a form that has to be such a name.
///
/// # Errors
/// The misfit of the form.
pub fn name_at<F: Misfit>(form: &Form) -> Result<&Letters, F>
    ensures { result_map_both (λ name. name.now) (λ fault. fault) result ≡ name_at F.misfit form.now }
{
    match identifier(form) {
        Some(name) => Ok(name),
        None => Err(F::misfit(form.from)),
    }
}

/// The forms of a form that has to be a list.
///
/// # Errors
/// The misfit of the form.
pub fn forms_at<F: Misfit>(form: &Form) -> Result<&[Form], F>
    ensures { result_map_both (λ forms. forms.now) (λ fault. fault) result ≡ forms_at F.misfit form.now }
{
    match as_list(form) {
        Some(forms) => Ok(forms),
        None => Err(F::misfit(form.from)),
    }
}

/// The next form of a list that begins at `place`, and those behind it.
///
/// # Errors
/// The misfit of the list, where no form is left.
pub fn next_at<F: Misfit>(place: u32, forms: &[Form]) -> Result<(&Form, &[Form]), F>
    ensures { result_map_both (λ p. (p.0.now, p.1.now)) (λ fault. fault) result ≡ next_at F.misfit place forms.now }
{
    match as_front(forms) {
        Some(parts) => Ok(parts),
        None => Err(F::misfit(place)),
    }
}

/// A value, where the list that it was read of ends here.
///
/// # Errors
/// The misfit of the first form that is too much.
pub fn end_of<T: Drop, F: Misfit>(forms: &[Form], value: T) -> Result<T, F>
    ensures { result ≡ end_of F.misfit forms.now value }
{
    match forms {
        [] => Ok(value),
        [form, ..] => Err(F::misfit(form.from)),
    }
}
